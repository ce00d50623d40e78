//! Marks at places, a bit for each.

use crate::level::{Level, Marks};
use crate::word::first_bit;
use crate::words::Words;
use std::alloc::{AllocError, Global};
use std::marker::Model;

mod copies;

/// A mark or none at each of so many places, from 0 on. A contract sees a list of numbers: 1 for a mark, 0 for none.
/// After `create` no call takes memory of the host.
#[derive(Drop)]
pub struct Bits {
    /// Each row over another has a mark for each of its words that has any, so that a search passes over 64, 4,096 or
    /// 262,144 places without a mark in one step.
    levels: Level<Level<Level<Words>>>,
}

impl Model for Bits {
    ghost use Rattle.std.specs.Prelude.{List, ℕ};

    ghost Value = { List ℕ };

    ghost view = { λ b. b.levels };
}

impl Bits {
    ghost use Rattle.std.specs.Prelude.{◌≡◌, ℕ, ◌+◌, ◌≤◌, ◌<◌, ◌^◌, length, slice_index, set, replicate, IfOk, IfSome, IfNone};
    ghost use Rattle.place_numbers.specs.Bits.{mark_of};
    ghost use Rattle.place_numbers.specs.Numbers.{FirstAtLeast, LastAtLeast};
    ghost use Rattle.place_numbers.specs.Shifted.{shifted_down, shifted_up};

    /// So many places without a mark. The only error is that the host has no memory.
    pub fn create(alloc: Global, count: usize) -> Result<Bits, AllocError>
        requires { count < 2 ^ 40 }
        ensures { IfOk result (λ bits. bits ≡ replicate count 0) }
    {
        Ok(Bits {
            levels: Level::create(alloc, count)?,
        })
    }

    /// How many places there are.
    pub fn len(&self) -> usize
        ensures { result ≡ length self.now }
    {
        self.levels.len()
    }

    /// Whether a mark is at a place.
    pub fn get(&self, place: usize) -> bool
        requires { place < length self.now }
        ensures { mark_of result ≡ slice_index self.now place }
    {
        self.levels.get(place)
    }

    /// Puts a mark at a place, or takes it away.
    pub fn set(&mut self, place: usize, marked: bool)
        requires { place < length self.old }
        ensures { self.new ≡ set self.old place (mark_of marked) }
    {
        self.levels.set(place, marked);
    }

    /// The first place with a mark, `from` or after it.
    pub fn first_from(&self, from: usize) -> Option<usize>
        ensures first { IfSome result (λ at. FirstAtLeast self.now 1 from at) }
        ensures none { IfNone result ((j : ℕ) → from ≤ j → j < length self.now → slice_index self.now j < 1) }
    {
        self.levels.first_from(from)
    }

    /// The first place with a mark, `from` or after it, that comes before `end`.
    pub fn first_between(&self, from: usize, end: usize) -> Option<usize>
        requires { end ≤ length self.now }
        ensures first { IfSome result (λ at. FirstAtLeast self.now 1 from at) }
        ensures before { IfSome result (λ at. at < end) }
        ensures none { IfNone result ((j : ℕ) → from ≤ j → j < end → slice_index self.now j < 1) }
    {
        let _len = self.len();
        let mut place = from;
        while place < end {
            let left = end - place;
            if let Some(bit) = first_bit(self.read(place), 0) {
                return if bit < left { Some(place + bit) } else { None };
            }
            place = self.pass(place + left.min(64), end);
        }
        None
    }

    /// The last place with a mark before `end`.
    pub fn last_before(&self, end: usize) -> Option<usize>
        requires { end ≤ length self.now }
        ensures last { IfSome result (λ at. LastAtLeast self.now 1 end at) }
        ensures none { IfNone result ((j : ℕ) → j < end → slice_index self.now j < 1) }
    {
        self.levels.last_before(end)
    }

    /// Moves the `count` marks from `from` on down to `to` and after it. Those between are gone, and none is left after
    /// the moved ones.
    pub fn shift_down(&mut self, from: usize, to: usize, count: usize)
        requires order { to ≤ from }
        requires inside { from + count ≤ length self.old }
        ensures { self.new ≡ shifted_down from to count self.old }
    {
        let _len = self.len();
        self.copy_down(from, to, count);
        self.clear(to + count, from + count);
    }

    /// Moves the `count` marks from `from` on up to `to` and after it. Those that were there are gone, and none is left
    /// before the moved ones.
    pub fn shift_up(&mut self, from: usize, to: usize, count: usize)
        requires order { from ≤ to }
        requires inside { to + count ≤ length self.old }
        ensures { self.new ≡ shifted_up from to count self.old }
    {
        let _len = self.len();
        self.copy_up(from, to, count);
        self.clear(from, to);
    }
}
