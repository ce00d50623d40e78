//! Tests of containers whose bytes are written out by hand, and of BinHex texts that other programs wrote.
#![tactic(auto)]

#[cfg(test)]
mod apple;
#[cfg(test)]
mod bin_hex;
#[cfg(test)]
mod binary;
#[cfg(test)]
mod known;
#[cfg(test)]
mod written;
