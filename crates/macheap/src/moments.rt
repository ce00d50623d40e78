//! The moments of the program's run.

use script_run::Moments;

/// The moments of a run over forks alone, and those of one over forks with journals: of one of both there are none. No
/// memory holds them.
#[derive(Drop)]
pub struct AnyMoments<S, J> {
    pub alone: Moments<S>,
    pub journalled: Moments<J>,
}

impl<S, J> AnyMoments<S, J> {
    /// None so far.
    pub fn new() -> AnyMoments<S, J> {
        AnyMoments {
            alone: Moments::new(),
            journalled: Moments::new(),
        }
    }
}
