//! Resource forks for programs in C: the bytes of a fork are read, and C is shown what they hold; and a fork is written
//! for the resources that C gives.
#![tactic(auto)]

mod all;
mod given;
mod read;
mod rows;
mod told;
mod write;
