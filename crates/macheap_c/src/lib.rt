//! The Memory Manager and the Resource Manager for programs in C.
#![tactic(auto)]

mod all_files;
mod attach;
mod bringing;
mod bytes;
mod calls;
mod diagnose;
mod forks;
mod growing;
mod guest;
mod image;
mod info;
mod life;
mod look;
mod named;
mod partial;
mod purges;
mod refusal;
mod resources;
mod saved_state;
mod walk;
mod wrote;
mod zones;
