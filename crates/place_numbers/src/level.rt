//! Rows of marks, each with a row above it that notes which of its words have any.

ghost use Rattle.std.specs.Prelude.{◌≡◌, ℕ, ◌+◌, ◌-◌, ◌/◌, ◌%◌, ◌≤◌, ◌<◌, ◌^◌, List, length, slice_index, set, replicate, IfOk, IfSome, IfNone};
ghost use Rattle.std.specs.Int.{bit_at};
ghost use Rattle.place_numbers.specs.Bits.{mark_of, AreWritten, AreNotedAt};
ghost use Rattle.place_numbers.specs.Numbers.{FirstAtLeast, LastAtLeast};
ghost use Rattle.place_numbers.specs.Shifted.{copied};

use crate::words::Words;
use std::alloc::{AllocError, Global};
use std::marker::Model;

/// So many places, from a multiple of this number on, are a group: its words have their marks in one word of the row
/// above.
pub const GROUP: usize = 1024;

/// A mark or none at each of so many places, from 0 on.
pub trait Marks: Drop {
    // A list of numbers: 1 for a mark, 0 for none.
    ghost marks: { Self → List ℕ };

    /// So many places without a mark. The only error is that the host has no memory.
    fn create(alloc: Global, count: usize) -> Result<Self, AllocError>
        requires { count < 2 ^ 40 }
        ensures { IfOk result (λ it. marks it ≡ replicate count 0) };

    /// Whether a mark is at a place.
    fn get(&self, place: usize) -> bool
        requires { place < length (marks self.now) }
        ensures { mark_of result ≡ slice_index (marks self.now) place };

    /// Puts the marks of `count` places of one word, the first that of the lowest bit.
    fn put(&mut self, place: usize, count: usize, bits: u64)
        requires some { 0 < count }
        requires word { place % 64 + count ≤ 64 }
        requires inside { place + count ≤ length (marks self.old) }
        ensures { AreWritten (marks self.old) (marks self.new) place count bits };

    /// The first place with a mark, `from` or after it.
    fn first_from(&self, from: usize) -> Option<usize>
        ensures first { IfSome result (λ at. FirstAtLeast (marks self.now) 1 from at) }
        ensures none { IfNone result ((j : ℕ) → from ≤ j → j < length (marks self.now) → slice_index (marks self.now) j < 1) };

    /// The last place with a mark before `end`.
    fn last_before(&self, end: usize) -> Option<usize>
        requires { end ≤ length (marks self.now) }
        ensures last { IfSome result (λ at. LastAtLeast (marks self.now) 1 end at) }
        ensures none { IfNone result ((j : ℕ) → j < end → slice_index (marks self.now) j < 1) };
}

/// Marks in words, and over them those of the words that have any.
#[derive(Drop)]
pub struct Level<U: Marks> {
    words: Words,
    used: U,
}

impl<U: Marks> Model for Level<U> {
    ghost use Rattle.std.specs.Prelude.{List, ℕ};

    ghost Value = { List ℕ };

    ghost use Rattle.place_numbers.specs.Bits.{AreNoted};

    ghost view = { λ l. l.words };

    ghost invariant = { λ l. AreNoted l.words (U.marks l.used) };
}

/// Notes whether a word has a mark.
fn note<U: Marks>(used: &mut U, word: usize, some: bool)
    requires { word < length (U.marks used.old) }
    ensures { U.marks used.new ≡ set (U.marks used.old) word (mark_of some) }
{
    if used.get(word) != some {
        used.put(word, 1, u64::from(some));
    }
}

/// Notes which words have a mark of those with these places.
fn note_words<U: Marks>(words: &Words, used: &mut U, place: usize, count: usize)
    requires some { 0 < count }
    requires group { place % 1024 + count ≤ 1024 }
    requires inside { place + count ≤ length words.now }
    requires noted { length (U.marks used.old) ≡ length words.now / 64 + 1 }
    ensures { AreNotedAt words.now (U.marks used.old) (U.marks used.new) (place / 64) ((place + count - 1) / 64) }
{
    let _len = words.len();
    let word = place / 64;
    let count = (place + count - 1) / 64 - word + 1;
    used.put(word, count, words.used(word, count));
}

impl<U: Marks> Level<U> {
    /// How many places there are.
    pub fn len(&self) -> usize
        ensures { result ≡ length self.now }
    {
        self.words.len()
    }

    /// The marks of 64 places, from one on, the lowest bit that of the first. After the last place there are none.
    pub fn read(&self, place: usize) -> u64
        ensures { (i : ℕ) → i < 64 → bit_at result i ≡ slice_index self.now (place + i) }
    {
        self.words.read(place)
    }

    /// Puts a mark at a place, or takes it away.
    pub fn set(&mut self, place: usize, marked: bool)
        requires { place < length self.old }
        ensures { self.new ≡ set self.old place (mark_of marked) }
    {
        let some = self.words.write(place, 1, u64::from(marked));
        note(&mut self.used, place / 64, some);
    }

    /// Copies so many marks of one group from `from` on down to those from `to` on.
    pub fn copy_down(&mut self, from: usize, to: usize, count: usize)
        requires some { 0 < count }
        requires order { to ≤ from }
        requires group { to % 1024 + count ≤ 1024 }
        requires inside { from + count ≤ length self.old }
        ensures { self.new ≡ copied from to count self.old }
    {
        self.words.copy_down(from, to, count);
        note_words(&self.words, &mut self.used, to, count);
    }

    /// Copies so many marks of one group from `from` on up to those from `to` on.
    pub fn copy_up(&mut self, from: usize, to: usize, count: usize)
        requires some { 0 < count }
        requires order { from ≤ to }
        requires group { to % 1024 + count ≤ 1024 }
        requires inside { to + count ≤ length self.old }
        ensures { self.new ≡ copied from to count self.old }
    {
        self.words.copy_up(from, to, count);
        note_words(&self.words, &mut self.used, to, count);
    }
}

impl<U: Marks> Marks for Level<U> {
    ghost marks = { λ x. x };

    fn create(alloc: Global, count: usize) -> Result<Level<U>, AllocError> {
        Ok(Level {
            words: Words::create(alloc, count)?,
            used: U::create(alloc, count / 64 + 1)?,
        })
    }

    fn get(&self, place: usize) -> bool {
        self.words.get(place)
    }

    fn put(&mut self, place: usize, count: usize, bits: u64) {
        let some = self.words.write(place, count, bits);
        note(&mut self.used, place / 64, some);
    }

    fn first_from(&self, from: usize) -> Option<usize> {
        if let Some(at) = self.words.first_in(from) {
            return Some(at);
        }
        let word = self.used.first_from(from / 64 + 1)?;
        self.words.first_in(word * 64)
    }

    fn last_before(&self, end: usize) -> Option<usize> {
        if end == 0 {
            return None;
        }
        if let Some(at) = self.words.last_in(end) {
            return Some(at);
        }
        let word = self.used.last_before((end - 1) / 64)?;
        self.words.last_in(word * 64 + 64)
    }
}
