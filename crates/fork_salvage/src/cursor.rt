//! The references of a fork, one after the other.

ghost use Rattle.std.specs.Prelude.{◌≡◌, ◌<◌, ◌≤◌, ◌+◌, ◌*◌, ◌^◌, [], ◌∷◌, length, MatchOption, IfSome};
ghost use Rattle.fork_salvage.specs.Plans.{IsPlan, IsCursor, left_of, reference_of};
ghost use Rattle.fork_salvage.specs.Salvage.{references, keeps_all};

use crate::entry::{ReferenceList, list_of};
use crate::plan::Plan;
use crate::reference::{MapReference, REFERENCE_LENGTH, is_kept};
use mac_base::resource::ResType;

/// Where in the references of a fork one is: what is left of a list, and the index of the entry after that.
#[derive(Clone, Copy)]
pub(crate) struct Cursor {
    list: ReferenceList,
    next: usize,
}

impl Cursor {
    /// A cursor before the references of the entry at an index.
    fn before(next: usize) -> Cursor
        ensures first { result.next ≡ next }
        ensures none { result.list.count ≡ 0 }
        ensures start { result.list.start ≡ 0 }
    {
        Cursor {
            list: ReferenceList {
                kind: ResType::new([0; 4]),
                count: 0,
                start: 0,
            },
            next,
        }
    }

    /// A cursor before the first reference.
    pub(crate) fn new() -> Cursor
        ensures first { result.next ≡ 0 }
        ensures none { result.list.count ≡ 0 }
        ensures start { result.list.start ≡ 0 }
    {
        Cursor::before(0)
    }

    /// A cursor after the last reference.
    pub(crate) fn after(plan: &Plan) -> Cursor
        ensures first { result.next ≡ plan.now.types.count }
        ensures none { result.list.count ≡ 0 }
        ensures start { result.list.start ≡ 0 }
    {
        Cursor::before(plan.types.count)
    }

    /// The next reference, or None after the last.
    pub(crate) fn next(&mut self, fork: &[u8], plan: &Plan) -> Option<MapReference>
        requires plan { IsPlan fork.now plan.now }
        requires cursor { IsCursor plan.now self.old }
        ensures cursor { IsCursor plan.now self.new }
        ensures left { MatchOption result (left_of fork.now plan.now self.old ≡ [])
            (λ reference. left_of fork.now plan.now self.old ≡ reference_of reference ∷ left_of fork.now plan.now self.new) }
        ensures small { IfSome result (λ reference. reference.place < 2 ^ 32) }
        ensures none { MatchOption result (left_of fork.now plan.now self.new ≡ []) (λ _. 0 < plan.now.types.count) }
    {
        while self.list.count == 0 {
            if self.next == plan.types.count {
                return None;
            }
            self.list = list_of(fork, plan, self.next);
            self.next += 1;
        }
        let place = self.list.start;
        self.list.count -= 1;
        self.list.start += REFERENCE_LENGTH;
        Some(MapReference {
            kind: self.list.kind,
            place,
        })
    }
}

/// Whether no reference of a fork that is looked at is without its bytes or its name.
pub(crate) fn keeps_all(fork: &[u8], plan: &Plan) -> bool
    requires { IsPlan fork.now plan.now }
    ensures { result ≡ keeps_all fork.now plan.now }
{
    let most = plan.most_rows(fork);
    let mut cursor = Cursor::new();
    for _turn in 0..most {
        let Some(reference) = cursor.next(fork, plan) else {
            return true;
        };
        if !is_kept(fork, plan, reference.place) {
            return false;
        }
    }
    true
}
