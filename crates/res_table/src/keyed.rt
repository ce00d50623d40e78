//! Where the rows are that have a key.

ghost use Rattle.std.specs.Prelude.{◌≡◌, ◌<◌, ◌≤◌, ◌+◌, ◌^◌, ◌↔◌, ℕ, true, false, [], length, drop, map, All, OnOk, IfSome, IsTrue};
ghost use Rattle.res_table.specs.Keyed.{in_order, is_before, rank, with_pair, without_pair, with_key, without_key, pushed_back, pulled_up, first_place, has_pair, AreInOrder};

use mac_base::error::HostFull;
use std::alloc::Global;
use std::marker::Model;

/// How far from where a pair should be it is looked for first, and then.
const NEAR: usize = 4;

const FAR: usize = 64;

/// The key of a row that has one, and where the row is.
#[derive(Clone, Copy, PartialEq, Eq, PartialOrd, Ord)]
pub struct Pair {
    pub key: u64,
    pub place: usize,
}

impl Pair {
    /// Whether the pair is before another.
    fn is_before(self, other: Pair) -> bool
        ensures { result ≡ is_before self other }
    {
        self < other
    }

    /// The pair, where a row is put in at an index.
    fn pushed_back(self, at: usize) -> Pair
        requires { self.place + 1 < 2 ^ 64 }
        ensures { result ≡ pushed_back at self }
    {
        if at <= self.place {
            Pair {
                key: self.key,
                place: self.place + 1,
            }
        } else {
            self
        }
    }

    /// The pair, where the row at an index, which isn't its own, is taken out.
    fn pulled_up(self, at: usize) -> Pair
        ensures { result ≡ pulled_up at self }
    {
        if at < self.place {
            Pair {
                key: self.key,
                place: self.place - 1,
            }
        } else {
            self
        }
    }
}

/// Moves pairs, where a row is put in at an index.
fn push_back(pairs: &mut [Pair], at: usize)
    requires { All (λ p. p.place + 1 < 2 ^ 64) pairs.old }
    ensures { pairs.new ≡ map (pushed_back at) pairs.old }
{
    for pair in pairs.iter_mut() {
        *pair = pair.pushed_back(at);
    }
}

/// Moves pairs, where the row at an index is taken out.
fn pull_up(pairs: &mut [Pair], at: usize)
    ensures { pairs.new ≡ map (pulled_up at) pairs.old }
{
    for pair in pairs.iter_mut() {
        *pair = pair.pulled_up(at);
    }
}

/// How many of so many keys that are spread evenly are in a distance.
fn count_within(distance: u64, count: usize) -> usize {
    ((distance >> 32).wrapping_mul(count as u64) >> 32) as usize
}

/// Where a pair should be, if the keys are spread evenly: as a pair that is near says.
fn guess(pairs: &[Pair], pair: Pair) -> usize
    ensures { result ≤ length pairs.now }
{
    let count = pairs.len();
    let at = count_within(pair.key, count);
    let Some(near) = pairs.get(at) else {
        return count;
    };
    if near.key <= pair.key {
        at.saturating_add(count_within(pair.key - near.key, count))
            .min(count)
    } else {
        at.saturating_sub(count_within(near.key - pair.key, count))
    }
}

/// Whether a pair is, or belongs, at an index or after it.
fn is_from(pairs: &[Pair], pair: Pair, index: usize) -> bool
    requires order { AreInOrder pairs.now }
    requires within { index ≤ length pairs.now }
    ensures { IsTrue result ↔ index ≤ rank pair pairs.now }
{
    index == 0 || pairs[index - 1].is_before(pair)
}

/// Whether a pair is, or belongs, at an index or before it.
fn is_up_to(pairs: &[Pair], pair: Pair, index: usize) -> bool
    requires order { AreInOrder pairs.now }
    ensures { IsTrue result ↔ rank pair pairs.now ≤ index }
{
    index >= pairs.len() || !pairs[index].is_before(pair)
}

/// Where a pair is, or belongs, among pairs: by halving.
fn rank_by_halving(pairs: &[Pair], pair: Pair) -> usize
    requires { AreInOrder pairs.now }
    ensures { result ≡ rank pair pairs.now }
{
    pairs.partition_point(|other| other.is_before(pair))
}

/// Where a pair is, or belongs, if that is so near to an index.
fn rank_near(pairs: &[Pair], pair: Pair, index: usize, reach: usize) -> Option<usize>
    requires order { AreInOrder pairs.now }
    requires within { index ≤ length pairs.now }
    ensures { IfSome result (λ at. at ≡ rank pair pairs.now) }
{
    let from = index.saturating_sub(reach);
    let to = index.saturating_add(reach).min(pairs.len());
    if !is_from(pairs, pair, from) || !is_up_to(pairs, pair, to) {
        return None;
    }
    Some(from + rank_by_halving(&pairs[from..to], pair))
}

/// Where a pair is, or belongs: after all others, or near to where it should be, or else by halving.
fn rank(pairs: &[Pair], pair: Pair) -> usize
    requires { AreInOrder pairs.now }
    ensures { result ≡ rank pair pairs.now }
{
    if is_from(pairs, pair, pairs.len()) {
        return pairs.len();
    }
    let index = guess(pairs, pair);
    if let Some(at) = rank_near(pairs, pair, index, NEAR) {
        return at;
    }
    if let Some(at) = rank_near(pairs, pair, index, FAR) {
        return at;
    }
    rank_by_halving(pairs, pair)
}

/// The rows that have a key, in the order of keys, and among those with the same key in the order of rows. So a row is
/// found where its key says that it should be, or else by halving. A contract sees the pairs, and how many there is
/// room for.
#[derive(Drop)]
pub struct Keyed {
    pairs: Vec<Pair>,
}

impl Model for Keyed {
    ghost use Rattle.std.specs.Prelude.{vec_capacity};
    ghost use Rattle.res_table.specs.Keyed.{KeyedPairs};

    ghost Value = { KeyedPairs };

    ghost view = { λ k. record { pairs = k.pairs.items; room = vec_capacity k.pairs } };
}

impl Keyed {
    /// No row has a key. This takes no memory of the host.
    pub fn new(alloc: Global) -> Keyed
        ensures { result.pairs ≡ [] }
    {
        Keyed {
            pairs: Vec::new(alloc),
        }
    }

    /// The pairs of rows, which may come in any order.
    pub fn sorted(mut pairs: Vec<Pair>) -> Keyed
        ensures { result.pairs ≡ in_order pairs.items }
    {
        pairs.sort_unstable();
        Keyed { pairs }
    }

    /// Makes room for so many pairs.
    pub fn reserve(&mut self, count: usize) -> Result<(), HostFull>
        ensures same { self.new.pairs ≡ self.old.pairs }
        ensures more { self.old.room ≤ self.new.room }
        ensures room { OnOk result (count ≤ self.new.room) }
    {
        let more = count.saturating_sub(self.pairs.len());
        self.pairs.reserve(more)?;
        Ok(())
    }

    /// Where a pair is, or belongs.
    fn rank(&self, pair: Pair) -> usize
        requires { AreInOrder self.now.pairs }
        ensures { result ≡ rank pair self.now.pairs }
    {
        rank(&self.pairs, pair)
    }

    /// Where the first row with a key is.
    pub fn find(&self, key: u64) -> Option<usize>
        requires { AreInOrder self.now.pairs }
        ensures { result ≡ first_place key self.now.pairs }
    {
        let start = self.rank(Pair { key, place: 0 });
        if start >= self.pairs.len() {
            return None;
        }
        let found = self.pairs[start];
        if found.key == key {
            Some(found.place)
        } else {
            None
        }
    }

    /// The pairs from the first one with a key on, or from where it would be.
    pub fn from_key(&self, key: u64) -> &[Pair]
        requires { AreInOrder self.now.pairs }
        ensures { result.now ≡ drop (rank (record { key = key; place = 0 }) self.now.pairs) self.now.pairs }
    {
        let first = self.rank(Pair { key, place: 0 });
        &self.pairs[first..]
    }

    /// The least key from this one on that no row has.
    pub fn first_free_key(&self, key: u64) -> u64
        requires order { AreInOrder self.now.pairs }
        requires room { key + length self.now.pairs < 2 ^ 64 }
        ensures from { key ≤ result }
        ensures few { result ≤ key + length self.now.pairs }
        ensures taken { (k : ℕ) → key ≤ k → k < result → has_pair k self.now.pairs ≡ true }
        ensures free { has_pair result self.now.pairs ≡ false }
    {
        let mut free = key;
        for pair in self.from_key(key) {
            if pair.key > free {
                return free;
            }
            if pair.key == free {
                free += 1;
            }
        }
        free
    }

    /// Adds the pair of the row at a place, which has this key, or none.
    pub fn add(&mut self, key: Option<u64>, place: usize)
        requires order { AreInOrder self.old.pairs }
        requires room { length (with_key key place self.old.pairs) ≤ self.old.room }
        ensures pairs { self.new.pairs ≡ with_key key place self.old.pairs }
        ensures room { self.new.room ≡ self.old.room }
    {
        if let Some(key) = key {
            let at = self.rank(Pair { key, place });
            let _ = self.pairs.insert(at, Pair { key, place });
        }
    }

    /// Takes out the pair of the row at a place, which had this key, or none.
    pub fn remove(&mut self, key: Option<u64>, place: usize)
        requires order { AreInOrder self.old.pairs }
        ensures pairs { self.new.pairs ≡ without_key key place self.old.pairs }
        ensures room { self.new.room ≡ self.old.room }
    {
        if let Some(key) = key {
            let at = self.rank(Pair { key, place });
            if at < self.pairs.len() {
                let _pair = self.pairs.remove(at);
            }
        }
    }

    /// Moves the pairs after a row that is put in at an index of so many rows. After all of them no pair moves.
    pub fn push_back(&mut self, at: usize, count: usize)
        requires { All (λ p. p.place < count) self.old.pairs }
        ensures pairs { self.new.pairs ≡ map (pushed_back at) self.old.pairs }
        ensures room { self.new.room ≡ self.old.room }
    {
        if at < count {
            push_back(&mut self.pairs, at);
        }
    }

    /// Moves the pairs after a row that is taken out.
    pub fn pull_up(&mut self, at: usize)
        ensures pairs { self.new.pairs ≡ map (pulled_up at) self.old.pairs }
        ensures room { self.new.room ≡ self.old.room }
    {
        pull_up(&mut self.pairs, at);
    }
}
