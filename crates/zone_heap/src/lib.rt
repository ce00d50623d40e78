//! A heap zone: one attempt to place, size, flag, release or show a block. And arrangements of its gaps. A gap is a run
//! of blocks that may move, between blocks that may not; its free bytes are brought to one place, and its other blocks
//! stay in order.
#![tactic(auto)]

mod adopting;
mod arrange;
mod attempt;
mod compact;
mod copying;
mod fitting;
mod gap;
mod growth;
mod place;
mod purge;
mod replace;
mod reports;
mod room;
mod run;
mod shortage;
mod size;
mod structure;
mod zone;

pub use arrange::{open_after, raise, squeeze_all_down, squeeze_down, squeeze_up};
pub use block_bytes::check;
pub use gap::{FoundGap, zone_end};
pub use room::{gap_after, own_gap};
pub use shortage::Shortage;
pub use zone::Zone;
