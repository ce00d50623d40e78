//! The loans that a program has.

ghost use Rattle.std.specs.Prelude.{◌≡◌, ◌+◌, ◌<◌, ◌≤◌, ◌++◌, ◌∷◌, [], None, IfSome, IfNone, IsFalse, length};
ghost use Rattle.held_calls.specs.Holding.{blocks_of, held_at, is_held, loan_written, StandsAt, FreeAt, IsFirst};

use crate::window::{Window, window_on};
use arrayvec::ArrayVec;
use mem_calls::MOST_LOANS;
use raw_region::Lent;
use std::marker::Model;
use std::mem;

/// The loan of a block.
pub struct Held {
    pub block: u32,
    pub loan: Lent,
}

/// The loans that a program has, 8 at most. A contract sees them in order of lending.
pub struct Loans {
    places: [Option<Held>; MOST_LOANS],
}

impl Model for Loans {
    ghost use Rattle.std.specs.Prelude.{List};
    ghost use Rattle.held_calls.specs.Holding.{held_at};
    ghost use Rattle.held_calls.specs.declared.loans.Held.{Held};

    ghost Value = { List Held };

    ghost view = { λ l. held_at l.places };
}

impl Drop for Loans {
    ghost use Rattle.std.specs.Prelude.{◌≡◌, []};

    /// Loans are given back, and none is dropped.
    fn drop(self)
        requires no_loans { self ≡ [] }
    {
        let Loans { places } = self;
        leave_all(places);
    }
}

impl Loans {
    ghost use Rattle.std.specs.List.{list_any};
    ghost use Rattle.std.specs.Prelude.{◌≡◌, ◌==◌, ℕ, ◌+◌, ◌<◌, ◌≤◌, [], ◌∷◌, ◌++◌, length, is_some, IfSome, IfNone, IsFalse};
    ghost use Rattle.mac_base.specs.LoanStep.{held_bytes};
    ghost use Rattle.held_calls.specs.Holding.{blocks_of, is_held, held_written, loans_of, IsOnLoan, TakenOut};

    /// No loans.
    pub fn new() -> Loans
        ensures { result ≡ [] }
    {
        Loans {
            places: [None, None, None, None, None, None, None, None],
        }
    }

    /// The bytes of the loan of a block, if it is held.
    pub fn bytes(&self, block: u32) -> Option<&[u8]>
        ensures held { is_some result ≡ is_held block self.now }
        ensures bytes { IfSome result (λ bytes. bytes.now ≡ held_bytes block (loans_of self.now)) }
    {
        let place = place_of(&self.places, block)?;
        let held = self.places[place].as_ref()?;
        Some(held.loan.bytes())
    }

    /// The blocks that are lent, in order of lending.
    pub fn blocks(&self) -> ArrayVec<u32, MOST_LOANS>
        ensures blocks { result.items ≡ blocks_of self.now }
        ensures told { (x : ℕ) → list_any (λ y. y == x) result.items ≡ is_held x self.now }
    {
        blocks_at(&self.places)
    }

    /// One more loan.
    pub fn add(&mut self, held: Held)
        requires room { length self.old < 8 }
        ensures { self.new ≡ self.old ++ held ∷ [] }
    {
        put_last(&mut self.places, held);
    }

    /// Writes bytes into the loan of a block, from an offset on.
    pub fn write(&mut self, block: u32, at: usize, bytes: &[u8])
        requires within { at + length bytes.now ≤ length (held_bytes block (loans_of self.old)) }
        ensures { self.new ≡ held_written block at bytes.now self.old }
    {
        let Some(place) = place_of(&self.places, block) else {
            return;
        };
        if let Some(held) = &mut self.places[place] {
            write_over(&mut held.loan, at, bytes);
        }
    }

    /// The window on the loan of a block, if it is held.
    pub fn window(&self, block: u32) -> Option<Window>
        ensures held { is_some result ≡ is_held block self.now }
        ensures window { IfSome result (λ window. IsOnLoan block self.now window) }
    {
        let place = place_of(&self.places, block)?;
        let held = self.places[place].as_ref()?;
        Some(window_on(&held.loan))
    }

    /// Takes out the loan of a block, if it is held.
    pub fn take_out(&mut self, block: u32) -> Option<Lent>
        ensures loan { IfSome result (λ loan. TakenOut block self.old loan self.new) }
        ensures none { IfNone result (IsFalse (is_held block self.old)) }
        ensures unchanged { IfNone result (self.new ≡ self.old) }
    {
        let place = place_of(&self.places, block)?;
        let Held { block: _, loan } = self.places[place].take()?;
        Some(loan)
    }

    /// Takes out the first loan, if there is one.
    pub fn take_first(&mut self) -> Option<Held>
        ensures first { IfSome result (λ held. self.old ≡ held ∷ self.new) }
        ensures none { IfNone result (self.old ≡ []) }
        ensures unchanged { IfNone result (self.new ≡ self.old) }
    {
        let block = first_block(&self.places)?;
        let loan = self.take_out(block)?;
        Some(Held { block, loan })
    }
}

/// The blocks whose loans are at places, in their order.
fn blocks_at(places: &[Option<Held>]) -> ArrayVec<u32, MOST_LOANS>
    requires { length places.now ≤ 8 }
    ensures { result.items ≡ blocks_of (held_at places.now) }
{
    let mut blocks = ArrayVec::new();
    for place in places {
        if let Some(held) = place {
            blocks.push(held.block);
        }
    }
    blocks
}

/// The place of a block's loan, if it has one.
fn place_of(places: &[Option<Held>], block: u32) -> Option<usize>
    ensures stands { IfSome result (λ n. StandsAt block places.now n) }
    ensures none { IfNone result (IsFalse (is_held block (held_at places.now))) }
{
    for (place, held) in places.iter().enumerate() {
        if let Some(held) = held
            && held.block == block
        {
            return Some(place);
        }
    }
    None
}

/// Puts a loan after all others.
fn put_last(places: &mut [Option<Held>], held: Held)
    requires { length (held_at places.old) < length places.old }
    ensures { held_at places.new ≡ held_at places.old ++ held ∷ [] }
{
    let free = free_place(places);
    places[free..].rotate_left(1);
    let last = places.len() - 1;
    leave(mem::replace(&mut places[last], Some(held)));
}

/// The first place that is free.
fn free_place(places: &[Option<Held>]) -> usize
    requires { length (held_at places.now) < length places.now }
    ensures { FreeAt places.now result }
{
    let mut place = 0;
    while places[place].is_some() {
        place += 1;
    }
    place
}

/// The block whose loan comes first.
fn first_block(places: &[Option<Held>]) -> Option<u32>
    ensures first { IfSome result (λ x. IsFirst x (held_at places.now)) }
    ensures none { IfNone result (held_at places.now ≡ []) }
{
    for held in places {
        if let Some(held) = held {
            return Some(held.block);
        }
    }
    None
}

/// Writes bytes into a loan, from an offset on.
fn write_over(loan: &mut Lent, at: usize, bytes: &[u8])
    requires within { at + length bytes.now ≤ length loan.old.bytes }
    ensures { loan.new ≡ loan_written at bytes.now loan.old }
{
    loan.bytes_mut()[at..at + bytes.len()].copy_from_slice(bytes);
}

/// Places without a loan are left.
fn leave_all(places: [Option<Held>; MOST_LOANS])
    requires { held_at places ≡ [] }
{
    let [a, b, c, d, e, f, g, h] = places;
    leave(a);
    leave(b);
    leave(c);
    leave(d);
    leave(e);
    leave(f);
    leave(g);
    leave(h);
}

/// A place without a loan is left.
fn leave(place: Option<Held>)
    requires { place ≡ None }
{
    match place {
        None => {}
        Some(_held) => unreachable!(),
    }
}
