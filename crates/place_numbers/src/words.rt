//! Marks in words of 64 bits, whose memory is touched only as far as they were written.

ghost use Rattle.std.specs.Prelude.{◌≡◌, ◌≢◌, ℕ, ◌+◌, ◌-◌, ◌*◌, ◌/◌, ◌%◌, ◌≤◌, ◌<◌, ◌^◌, IsTrue, IsFalse, IfSome, IfNone, length, slice_index, vec_capacity};
ghost use Rattle.std.specs.Int.{bit_at};
ghost use Rattle.place_numbers.specs.Bits.{AreWritten, HasMark};
ghost use Rattle.place_numbers.specs.Numbers.{FirstAtLeast, LastAtLeast};
ghost use Rattle.place_numbers.specs.Shifted.{copied};

use crate::level::Marks;
use crate::word::{bits_from, first_bit, last_bit, with_bits};
use std::alloc::{AllocError, Global};
use std::marker::Model;

/// A mark or none at each of so many places, from 0 on. A contract sees a list of numbers: 1 for a mark, 0 for none.
#[derive(Drop)]
pub struct Words {
    /// The marks of 64 places each, up to the last word that was written. After it there are none.
    items: Vec<u64>,
    count: usize,
}

impl Model for Words {
    ghost use Rattle.std.specs.Prelude.{List, ℕ, vec_capacity};

    ghost Value = { List ℕ };

    ghost use Rattle.place_numbers.specs.Bits.{bits_of, AreWords};

    ghost view = { λ w. bits_of w.items.items w.count };

    ghost invariant = { λ w. AreWords w.items.items w.count (vec_capacity w.items) };
}

/// The word at a place, 0 after the last that was written.
fn word_at(words: &Vec<u64>, place: usize) -> u64
    ensures { result ≡ slice_index words.now.items place }
{
    if place < words.len() { words[place] } else { 0 }
}

/// Writes the word at a place, where another is there. Those before it that weren't written yet are 0.
fn put(words: &mut Vec<u64>, place: usize, word: u64)
    requires { place < vec_capacity words.old }
    ensures here { slice_index words.new.items place ≡ word }
    ensures others { (j : ℕ) → j ≢ place → slice_index words.new.items j ≡ slice_index words.old.items j }
    ensures room { vec_capacity words.old ≤ vec_capacity words.new }
{
    if word_at(words, place) == word {
        return;
    }
    if words.len() <= place {
        let _ = words.resize(place + 1, 0);
    }
    words[place] = word;
}

impl Words {
    /// How many places there are.
    pub fn len(&self) -> usize
        ensures value { result ≡ length self.now }
        ensures few { result < 2 ^ 40 }
    {
        self.count
    }

    /// The marks of 64 places, from one on, the lowest bit that of the first. After the last place there are none.
    pub fn read(&self, place: usize) -> u64
        ensures { (i : ℕ) → i < 64 → bit_at result i ≡ slice_index self.now (place + i) }
    {
        let word = place / 64;
        bits_from(
            word_at(&self.items, word),
            word_at(&self.items, word + 1),
            place % 64,
        )
    }

    /// Writes the marks of `count` places of one word, the first that of the lowest bit. Says whether the word has any
    /// mark now.
    pub fn write(&mut self, place: usize, count: usize, marks: u64) -> bool
        requires some { 0 < count }
        requires word { place % 64 + count ≤ 64 }
        requires inside { place + count ≤ length self.old }
        ensures written { AreWritten self.old self.new place count marks }
        ensures some { IsTrue result → HasMark self.new (place / 64) }
        ensures none { IsFalse result → (j : ℕ) → j / 64 ≡ place / 64 → slice_index self.new j < 1 }
    {
        let word = place / 64;
        let before = word_at(&self.items, word);
        let now = with_bits(before, place % 64, count, marks);
        put(&mut self.items, word, now);
        now != 0
    }

    /// Which of so many words have any mark: a bit for each, the lowest that of the first.
    pub fn used(&self, word: usize, count: usize) -> u64
        requires few { count ≤ 64 }
        requires inside { word + count ≤ length self.now / 64 + 1 }
        ensures some { (i : ℕ) → i < count → bit_at result i ≡ 1 → HasMark self.now (word + i) }
        ensures none { (i : ℕ) → i < count → bit_at result i ≡ 0 → (j : ℕ) → j / 64 ≡ word + i → slice_index self.now j < 1 }
    {
        let _len = self.len();
        let mut used = 0;
        let mut done = 0;
        while done < count {
            let is_used = word_at(&self.items, word + done) != 0;
            used = with_bits(used, done, 1, u64::from(is_used));
            done += 1;
        }
        used
    }

    /// Copies so many marks from `from` on down to those from `to` on, the low ones first.
    pub fn copy_down(&mut self, from: usize, to: usize, count: usize)
        requires order { to ≤ from }
        requires inside { from + count ≤ length self.old }
        ensures { self.new ≡ copied from to count self.old }
    {
        let _len = self.len();
        let mut done = 0;
        while done < count {
            let piece = (count - done).min(64 - (to + done) % 64);
            let marks = self.read(from + done);
            self.write(to + done, piece, marks);
            done += piece;
        }
    }

    /// Copies so many marks from `from` on up to those from `to` on, the high ones first.
    pub fn copy_up(&mut self, from: usize, to: usize, count: usize)
        requires order { from ≤ to }
        requires inside { to + count ≤ length self.old }
        ensures { self.new ≡ copied from to count self.old }
    {
        let _len = self.len();
        let mut left = count;
        while 0 < left {
            let piece = left.min((to + left - 1) % 64 + 1);
            left -= piece;
            let marks = self.read(from + left);
            self.write(to + left, piece, marks);
        }
    }

    /// The first place with a mark in the word of `from`, `from` or after it.
    pub fn first_in(&self, from: usize) -> Option<usize>
        ensures first { IfSome result (λ at. FirstAtLeast self.now 1 from at) }
        ensures none { IfNone result ((j : ℕ) → from ≤ j → j / 64 ≡ from / 64 → slice_index self.now j < 1) }
    {
        let word = from / 64;
        let bit = first_bit(word_at(&self.items, word), from % 64)?;
        Some(word * 64 + bit)
    }

    /// The last place with a mark before `end`, in the word of the place before it.
    pub fn last_in(&self, end: usize) -> Option<usize>
        requires { 0 < end }
        ensures last { IfSome result (λ at. LastAtLeast self.now 1 end at) }
        ensures none { IfNone result ((j : ℕ) → j < end → j / 64 ≡ (end - 1) / 64 → slice_index self.now j < 1) }
    {
        let word = (end - 1) / 64;
        let bit = last_bit(word_at(&self.items, word), end - word * 64)?;
        Some(word * 64 + bit)
    }
}

impl Marks for Words {
    ghost marks = { λ x. x };

    fn create(alloc: Global, count: usize) -> Result<Words, AllocError> {
        Ok(Words {
            items: Vec::with_capacity(alloc, count / 64 + 1)?,
            count,
        })
    }

    fn get(&self, place: usize) -> bool {
        word_at(&self.items, place / 64) >> (place % 64) & 1 != 0
    }

    fn put(&mut self, place: usize, count: usize, marks: u64) {
        self.write(place, count, marks);
    }

    fn first_from(&self, from: usize) -> Option<usize> {
        let count = self.len();
        let mut place = from;
        while place < count {
            if let Some(at) = self.first_in(place) {
                return Some(at);
            }
            place = (place / 64 + 1) * 64;
        }
        None
    }

    fn last_before(&self, end: usize) -> Option<usize> {
        let mut place = end;
        while 0 < place {
            if let Some(at) = self.last_in(place) {
                return Some(at);
            }
            place = (place - 1) / 64 * 64;
        }
        None
    }
}
