//! Two files that were prepared are put one after the other.

ghost use Rattle.std.specs.Prelude.{◌≡◌};
ghost use Rattle.file_replace.specs.Pair.{CallsOfBoth, CausesOf, IfBothHonest, LeftOfBoth, PutsBoth};

use crate::place::{FolderSync, Replaces};
use crate::replacement::{Fault, put};

/// Why two files weren't put, or not for good.
#[derive(Debug, Drop)]
pub enum PairFault<E, F> {
    /// The first wasn't put, or not for good. The second path has what it had; whether the file beside it may be there
    /// still.
    First { fault: Fault<E>, is_left: bool },
    /// The first was put and its folder synced, if that is offered. The second wasn't put, or not for good.
    Second(Fault<F>),
}

/// Puts two files that were prepared beside their paths, the second one only once the first was renamed and its folder
/// synced. So after any end the second path has what it had, or the first path has its new file.
pub fn put_both<R: Replaces, S: Replaces>(
    first: &mut R,
    second: &mut S,
) -> Result<(FolderSync, FolderSync), PairFault<R::Error, S::Error>>
    ensures calls { CallsOfBoth result (R.seen first.old).calls (R.seen first.new).calls (S.seen second.old).calls (S.seen second.new).calls }
    ensures puts { IfBothHonest (PutsBoth result (R.seen first.old) (R.seen first.new) (S.seen second.old) (S.seen second.new)) (R.seen first.old) (R.seen first.new) (S.seen second.old) (S.seen second.new) }
    ensures cause { CausesOf result (R.failures first.old) (R.failures first.new) (S.failures second.old) (S.failures second.new) }
    ensures left { LeftOfBoth result (R.may_leave first.new) (S.may_leave second.new) }
    ensures stays_first { R.spot first.new ≡ R.spot first.old }
    ensures stays_second { S.spot second.new ≡ S.spot second.old }
{
    match put(first) {
        Ok(answer) => match put(second) {
            Ok(also) => Ok((answer, also)),
            Err(fault) => Err(PairFault::Second(fault)),
        },
        Err(fault) => Err(PairFault::First {
            fault,
            is_left: second.remove().is_err(),
        }),
    }
}
