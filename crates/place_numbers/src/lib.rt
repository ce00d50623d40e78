//! Marks at places, a bit for each, and numbers from 0 to 3 that are kept in three rows of them. Few bytes move where a
//! run of numbers moves, and searches pass over places without a mark.
#![tactic(auto)]

ghost use Rattle.std.specs.Prelude.{◌≡◌, ◌<◌, length, set};
ghost use Rattle.place_numbers.specs.Bits.{mark_of};

mod bits;
mod level;
mod word;
mod words;

pub use bits::Bits;
use std::alloc::{AllocError, Global};
use std::marker::Model;

/// Numbers from 0 to 3, each at its place from 0 on. A contract sees their list. After `create` no call takes memory of
/// the host.
#[derive(Drop)]
pub struct Numbers {
    /// Where the number isn't 0.
    some: Bits,
    /// Where it is 2.
    middle: Bits,
    /// Where it is 3.
    most: Bits,
}

impl Model for Numbers {
    ghost use Rattle.std.specs.Prelude.{List, ℕ};

    ghost Value = { List ℕ };

    ghost use Rattle.place_numbers.specs.Numbers.{numbers_of, AreParts};

    ghost view = { λ n. numbers_of n.some n.middle n.most };

    ghost invariant = { λ n. AreParts n.some n.middle n.most };
}

/// Puts a mark at a place, or takes it away, where it isn't so yet.
fn put(marks: &mut Bits, place: usize, marked: bool)
    requires { place < length marks.old }
    ensures { marks.new ≡ set marks.old place (mark_of marked) }
{
    if marks.get(place) != marked {
        marks.set(place, marked);
    }
}

impl Numbers {
    ghost use Rattle.std.specs.Prelude.{◌≡◌, ℕ, ◌+◌, ◌≤◌, ◌<◌, ◌^◌, length, slice_index, set, replicate, IfOk, IfSome, IfNone};
    ghost use Rattle.place_numbers.specs.Numbers.{FirstAtLeast, LastAtLeast};
    ghost use Rattle.place_numbers.specs.Shifted.{shifted_down, shifted_up};

    /// So many numbers, all 0. The only error is that the host has no memory.
    pub fn create(alloc: Global, count: usize) -> Result<Numbers, AllocError>
        requires { count < 2 ^ 40 }
        ensures { IfOk result (λ numbers. numbers ≡ replicate count 0) }
    {
        Ok(Numbers {
            some: Bits::create(alloc, count)?,
            middle: Bits::create(alloc, count)?,
            most: Bits::create(alloc, count)?,
        })
    }

    /// How many places there are.
    pub fn len(&self) -> usize
        ensures { result ≡ length self.now }
    {
        self.some.len()
    }

    /// The number at a place.
    pub fn get(&self, place: usize) -> u8
        requires { place < length self.now }
        ensures { result ≡ slice_index self.now place }
    {
        if !self.some.get(place) {
            0
        } else if self.most.get(place) {
            3
        } else if self.middle.get(place) {
            2
        } else {
            1
        }
    }

    /// Writes the number at a place.
    pub fn set(&mut self, place: usize, number: u8)
        requires inside { place < length self.old }
        requires most { number ≤ 3 }
        ensures { self.new ≡ set self.old place number }
    {
        put(&mut self.some, place, number != 0);
        put(&mut self.middle, place, number == 2);
        put(&mut self.most, place, number == 3);
    }

    /// Moves the `count` numbers from `from` on down to `to` and after it. Those between are gone, and as many zeros
    /// come after the moved ones.
    pub fn shift_down(&mut self, from: usize, to: usize, count: usize)
        requires order { to ≤ from }
        requires inside { from + count ≤ length self.old }
        ensures { self.new ≡ shifted_down from to count self.old }
    {
        self.some.shift_down(from, to, count);
        self.middle.shift_down(from, to, count);
        self.most.shift_down(from, to, count);
    }

    /// Moves the `count` numbers from `from` on up to `to` and after it. Those that were there are gone, and as many
    /// zeros come before the moved ones.
    pub fn shift_up(&mut self, from: usize, to: usize, count: usize)
        requires order { from ≤ to }
        requires inside { to + count ≤ length self.old }
        ensures { self.new ≡ shifted_up from to count self.old }
    {
        self.some.shift_up(from, to, count);
        self.middle.shift_up(from, to, count);
        self.most.shift_up(from, to, count);
    }

    /// The first place, `from` or after it, whose number isn't 0.
    pub fn first_some(&self, from: usize) -> Option<usize>
        ensures first { IfSome result (λ at. FirstAtLeast self.now 1 from at) }
        ensures none { IfNone result ((j : ℕ) → from ≤ j → j < length self.now → slice_index self.now j < 1) }
    {
        self.some.first_from(from)
    }

    /// The last place before `end` whose number isn't 0.
    pub fn last_some(&self, end: usize) -> Option<usize>
        requires inside { end ≤ length self.now }
        ensures last { IfSome result (λ at. LastAtLeast self.now 1 end at) }
        ensures none { IfNone result ((j : ℕ) → j < end → slice_index self.now j < 1) }
    {
        self.some.last_before(end)
    }

    /// The first place, `from` or after it, whose number is 3.
    pub fn first_most(&self, from: usize) -> Option<usize>
        ensures first { IfSome result (λ at. FirstAtLeast self.now 3 from at) }
        ensures none { IfNone result ((j : ℕ) → from ≤ j → j < length self.now → slice_index self.now j < 3) }
    {
        self.most.first_from(from)
    }

    /// The last place before `end` whose number is 3.
    pub fn last_most(&self, end: usize) -> Option<usize>
        requires inside { end ≤ length self.now }
        ensures last { IfSome result (λ at. LastAtLeast self.now 3 end at) }
        ensures none { IfNone result ((j : ℕ) → j < end → slice_index self.now j < 3) }
    {
        self.most.last_before(end)
    }
}
