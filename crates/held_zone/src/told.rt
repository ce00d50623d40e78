//! What C gets from a call.

ghost use Rattle.std.specs.Prelude.{◌≡◌, Some};
ghost use Rattle.mac_base.specs.Outcomes.{done_outcome};
ghost use Rattle.held_zone.specs.Told.{code_told, number_in, number_told, numbers_in, numbers_told};

use crate::host_err::HostErr;
use mac_base::error::{NO_ERR, OsErr};
use mac_base::{Outcome, Results};

/// The code of an outcome, if there is a zone.
pub fn code(outcome: &Option<Outcome>) -> i16
    ensures { result ≡ code_told outcome.now }
{
    match outcome {
        None => HostErr::NotThere.code(),
        Some(Ok(_)) => NO_ERR,
        Some(Err(code)) => code.code(),
    }
}

/// The code of an outcome, whose number is written where it gives one.
pub fn number(outcome: &Option<Outcome>, number: &mut u32) -> i16
    ensures code { result ≡ code_told outcome.now }
    ensures number { number.new ≡ number_told number.old outcome.now }
{
    if let Some(Ok(results)) = outcome
        && let Some(given) = number_in(results)
    {
        *number = given;
    }
    code(outcome)
}

/// The code of an outcome, whose two numbers are written where it gives them.
pub fn numbers(outcome: &Option<Outcome>, first: &mut u32, second: &mut u32) -> i16
    ensures code { result ≡ code_told outcome.now }
    ensures numbers { (first.new, second.new) ≡ numbers_told (first.old, second.old) outcome.now }
{
    if let Some(Ok(results)) = outcome
        && let Some(given) = numbers_in(results)
    {
        *first = given.0;
        *second = given.1;
    }
    code(outcome)
}

/// The number that results are.
fn number_in(results: &Results) -> Option<u32>
    ensures { result ≡ number_in results.now }
{
    match results {
        Results::Handle(handle) => Some(handle.number()),
        Results::Pointer(pointer) => Some(pointer.number()),
        Results::Address(address) => Some(*address),
        Results::Number(number) => Some(*number),
        _ => None,
    }
}

/// The two numbers that results are.
fn numbers_in(results: &Results) -> Option<(u32, u32)>
    ensures { result ≡ numbers_in results.now }
{
    match results {
        Results::TwoNumbers(first, second) => Some((*first, *second)),
        _ => None,
    }
}

/// The code of a call without results.
pub fn done(given: Result<(), OsErr>) -> i16
    ensures { result ≡ code_told (Some (done_outcome given)) }
{
    match given {
        Ok(()) => NO_ERR,
        Err(code) => code.code(),
    }
}
