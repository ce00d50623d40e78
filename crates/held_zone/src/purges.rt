//! The handles that calls purge, one after another: noted for C, or held.

ghost use Rattle.std.specs.Prelude.{◌≡◌, Bool, true};
ghost use Rattle.linked_zone.specs.Loans.{KeepsLoans};
ghost use Rattle.held_zone.specs.InTurn.{GoesThrough};

use arrayvec::ArrayVec;
use mac_base::MemoryCall;
use mac_base::handle::Handle;
use mem_calls::MemoryManager;
use std::marker::Model;

/// How many handles of one call are noted at most.
const MOST_NOTED: usize = 1024;

/// Whether calls are held that would purge, and what the last call purged, or would have.
#[derive(Drop)]
pub struct Purges {
    held: bool,
    turn: Option<Handle>,
    first: ArrayVec<u32, MOST_NOTED>,
    count: u32,
}

impl Model for Purges {
    ghost use Rattle.held_zone.specs.Purges.{Purges};

    ghost Value = { Purges };

    ghost view = { λ p. record { held = p.held; turn = p.turn; first = p.first.items; count = p.count } };
}

impl Purges {
    ghost use Rattle.std.specs.Prelude.{[], ◌∷◌, ◌++◌, List, ℕ};
    ghost use Rattle.held_zone.specs.Purges.{holding, no_purges, purged_these, waits_for};

    /// No call is held, and none purged.
    pub fn new() -> Purges
        ensures { result ≡ no_purges }
    {
        Purges {
            held: false,
            turn: None,
            first: ArrayVec::new(),
            count: 0,
        }
    }

    /// Holds calls that would purge from now on, or no more.
    pub fn hold(&mut self, on: bool)
        ensures { self.new ≡ holding on self.old }
    {
        self.held = on;
    }

    /// The handle whose turn it is, if the last call was held.
    pub fn turn(&self) -> Option<Handle>
        ensures { result ≡ self.now.turn }
    {
        self.turn
    }

    /// The handles that the last call purged, in order: the first 1,024 of them.
    pub fn first(&self) -> &[u32]
        ensures { result.now ≡ self.now.first }
    {
        self.first.as_slice()
    }

    /// How many handles the last call purged.
    pub fn count(&self) -> u32
        ensures { result ≡ self.now.count }
    {
        self.count
    }

    /// A call begins: it has purged none yet.
    fn begin(&mut self)
        ensures { self.new ≡ purged_these [] self.old }
    {
        self.turn = None;
        self.first.clear();
        self.count = 0;
    }

    /// The call is held, and this handle's turn it is.
    fn wait_for(&mut self, handle: Handle)
        ensures { self.new ≡ waits_for handle self.old }
    {
        self.begin();
        self.turn = Some(handle);
    }

    /// The call has purged one more.
    fn note(&mut self, handle: Handle)
        ensures { (hs : List ℕ) (from : Purges) → self.old ≡ purged_these hs from → self.new ≡ purged_these (hs ++ handle ∷ []) from }
    {
        if self.first.len() < MOST_NOTED {
            self.first.push(handle.number());
        }
        self.count = self.count.saturating_add(1);
    }
}

/// Empties the handles that a call would purge, one after another, by EmptyHandle, and notes each. Where purges are
/// held the first of them waits, and none is emptied. Whether the call may be made then.
pub(crate) fn purge_in_turn(
    memory: &mut MemoryManager,
    purges: &mut Purges,
    call: &MemoryCall<'_>,
) -> bool
    ensures { GoesThrough memory.old purges.old call.now result memory.new purges.new }
{
    purges.begin();
    while let Some(handle) = memory.next_purge(call) {
        if purges.held {
            purges.wait_for(handle);
            return false;
        }
        // It isn't refused: what may be purged may be emptied.
        let _emptied = memory.empty_handle(handle);
        purges.note(handle);
    }
    true
}
