//! The rows over a row, one after another: each has the sums of the groups of the one below it, down to few sums.

ghost use Rattle.std.specs.Prelude.{◌≡◌, ◌+◌, ◌*◌, ◌≤◌, ◌<◌, ◌^◌, IsFalse, MatchOption, length, replicate};
ghost use Rattle.sum_tree.specs.Monoids.{total};
ghost use Rattle.sum_tree.specs.Rows.{AreOver, AreOverBut, IsFirst};

use crate::monoid::{Monoid, Test};
use crate::rows::{GROUP, Stop, first_of_few, renew_group, renew_row, sum_of_few, walk_group};

/// How many sums lie over so many.
pub fn sums_above<M: Monoid>(count: usize) -> usize
    requires { count < 2 ^ 40 }
    ensures few { result ≤ count }
    ensures over { AreOver M.empty M.op (replicate count M.empty) (replicate result M.empty) }
{
    if count <= GROUP {
        return 0;
    }
    let groups = count.div_ceil(GROUP);
    groups + sums_above::<M>(groups)
}

/// Makes the sums over a group right again, where all others are. Where one stays what it was, those over it do.
pub fn renew<M: Monoid>(lower: &[M], upper: &mut [M], group: usize)
    requires inside { 8 * group < length lower.now }
    requires fits { M.fits (total M.empty M.op lower.now) }
    requires others { AreOverBut M.empty M.op lower.now upper.old (8 * group) (8 * group + 8) }
    ensures { AreOver M.empty M.op lower.now upper.new }
{
    if lower.len() <= GROUP {
        return;
    }
    let (row, rest) = upper.split_at_mut(lower.len().div_ceil(GROUP));
    if renew_group(lower, row, group) {
        renew(row, rest, group / GROUP);
    }
}

/// Makes all sums over a row anew.
pub fn renew_all<M: Monoid>(lower: &[M], upper: &mut [M])
    requires fits { M.fits (total M.empty M.op lower.now) }
    requires places { AreOverBut M.empty M.op lower.now upper.old 0 (length lower.now) }
    ensures { AreOver M.empty M.op lower.now upper.new }
{
    if lower.len() <= GROUP {
        return;
    }
    let (row, rest) = upper.split_at_mut(lower.len().div_ceil(GROUP));
    renew_row(lower, row);
    renew_all(row, rest);
}

/// The sum of a row.
pub fn total<M: Monoid>(lower: &[M], upper: &[M]) -> M
    requires over { AreOver M.empty M.op lower.now upper.now }
    requires fits { M.fits (total M.empty M.op lower.now) }
    ensures { result ≡ total M.empty M.op lower.now }
{
    if lower.len() <= GROUP {
        return sum_of_few(lower);
    }
    let (row, rest) = upper.split_at(lower.len().div_ceil(GROUP));
    total(row, rest)
}

/// The first place with which the sum of all up to it passes a test, and the sum before it. In each row one group is
/// walked over.
pub fn first<M: Monoid, T: Test<M>>(lower: &[M], upper: &[M], test: &T) -> Option<Stop<M>>
    requires over { AreOver M.empty M.op lower.now upper.now }
    requires fits { M.fits (total M.empty M.op lower.now) }
    requires begins { IsFalse (T.passes test.now M.empty) }
    ensures { MatchOption result (IsFalse (T.passes test.now (total M.empty M.op lower.now))) (λ stop. IsFirst M.empty M.op (T.passes test.now) lower.now stop.at stop.sum) }
{
    if lower.len() <= GROUP {
        return first_of_few(lower, test);
    }
    let (row, rest) = upper.split_at(lower.len().div_ceil(GROUP));
    let above = first(row, rest, test)?;
    Some(walk_group(lower, above.at, above.sum, test))
}
