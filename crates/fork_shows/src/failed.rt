//! A command that reads or writes several files names the one that is in the way.

ghost use Rattle.std.specs.Prelude.{◌≡◌, IfErr, IfOk, Ok, Err};

use file_acts::message::Problem;

/// A file, and why it is in the way.
#[derive(Drop)]
pub struct Failed<'a> {
    pub file: &'a str,
    pub problem: Problem,
}

/// What was done with a file, or that it is in the way.
pub fn of_file<'a, T>(file: &'a str, done: Result<T, Problem>) -> Result<T, Failed<'a>>
    ensures value { IfOk result (λ value. done ≡ Ok value) }
    ensures problem { IfErr result (λ failed. done ≡ Err failed.problem) }
{
    match done {
        Ok(value) => Ok(value),
        Err(problem) => Err(Failed { file, problem }),
    }
}
