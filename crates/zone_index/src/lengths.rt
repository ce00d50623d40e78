//! How many bytes handles have, as far as that is remembered.

ghost use Rattle.std.specs.Prelude.{◌≡◌, ◌+◌, ◌*◌, ◌<◌, ◌≤◌, ℕ, IfSome, IfNone, IfOk, SomeIff, length, slice_get, Some, None, vec_capacity};
ghost use Rattle.zone_index.specs.Lengths.{IsNoted, Tells, TellsNothing, TellsSame};

use std::alloc::{AllocError, Global};
use std::marker::Model;

/// How many bytes a handle has, if that is remembered, in two bytes: 65,535 or more never are. A contract sees the
/// number, or none.
#[derive(Clone, Copy)]
struct Remembered(
    /// One more than the number, or 0 for none.
    u16,
);

impl Model for Remembered {
    ghost use Rattle.std.specs.Prelude.{ℕ, Option};

    ghost Value = { Option ℕ };

    ghost use Rattle.zone_index.specs.Lengths.{remembered, one_more, one_more-remembered};

    ghost view = { λ r. remembered r.0 };

    ghost inverse = { λ o. record { 0 = one_more o } };

    ghost inverse_ok = { λ r h i. record { 0 = one_more-remembered r.0 i } };
}

impl Remembered {
    /// Nothing is remembered.
    const NOTHING: Remembered = Remembered(0);

    /// So many bytes, or nothing where the number is too large.
    fn new(length: u32) -> Remembered
        ensures { SomeIff result (length < u16.MAX) length }
    {
        if length < u32::from(u16::MAX) {
            Remembered(length as u16 + 1)
        } else {
            Remembered::NOTHING
        }
    }

    /// The number, if there is one.
    fn length(self) -> Option<u32>
        ensures { result ≡ self }
    {
        let length = self.0.checked_sub(1)?;
        Some(u32::from(length))
    }
}

/// How many bytes handles have, as far as that is remembered. After `create` no call takes memory of the host.
#[derive(Drop)]
pub(crate) struct Lengths {
    /// Where the zone begins.
    base: u32,
    /// There is a place for each four bytes of the zone, up to the last handle for which one was asked and there was
    /// room. Nothing is remembered of a handle above.
    places: Vec<Remembered>,
}

impl Lengths {
    /// Nothing is remembered. There is room for so many places.
    pub(crate) fn create(alloc: Global, base: u32, count: usize) -> Result<Lengths, AllocError>
        ensures { IfOk result (λ lengths. TellsNothing lengths) }
    {
        Ok(Lengths {
            base,
            places: Vec::with_capacity(alloc, count)?,
        })
    }

    /// The place of a number, if it has one.
    fn place(&self, block: u32) -> Option<usize>
        ensures some { IfSome result (λ place. block ≡ self.now.base + 4 * place) }
        ensures none { IfNone result ((place : ℕ) → block ≡ self.now.base + 4 * place → ⊥) }
    {
        let offset = block.checked_sub(self.base)?;
        if offset % 4 == 0 {
            Some(offset as usize / 4)
        } else {
            None
        }
    }

    /// Makes the place of a number one of those that there are, if there is room for it.
    pub(crate) fn reach(&mut self, block: u32)
        ensures { TellsSame self.old self.new }
    {
        if let Some(place) = self.place(block)
            && place < self.places.capacity()
        {
            extend(&mut self.places, place + 1);
        }
    }

    /// Remembers how many bytes a number has, if its place is one of those that there are and the length isn't too
    /// large for it. Else nothing is remembered of the number.
    pub(crate) fn note(&mut self, block: u32, length: u32)
        ensures { IsNoted block length self.old self.new }
    {
        let Some(place) = self.place(block) else {
            return;
        };
        if place < self.places.len() {
            self.places[place] = Remembered::new(length);
        }
    }

    /// How many bytes a number has, if that is remembered.
    pub(crate) fn told(&self, block: u32) -> Option<u32>
        ensures { IfSome result (λ length. Tells self.now block length) }
    {
        let place = self.place(block)?;
        self.places.get(place)?.length()
    }
}

/// Puts places of which nothing is remembered after the others, up to so many in all. There is room for them.
fn extend(places: &mut Vec<Remembered>, end: usize)
    requires { end ≤ vec_capacity places.old }
    ensures { (p n : ℕ) → slice_get places.new.items p ≡ Some (Some n) → slice_get places.old.items p ≡ Some (Some n) }
{
    while places.len() < end {
        let Ok(()) = places.push(Remembered::NOTHING) else {
            return;
        };
    }
}
