//! Words of 64 bits.

ghost use Rattle.std.specs.Prelude.{◌≡◌, ℕ, ◌+◌, ◌-◌, ◌≤◌, ◌<◌, IfSome, IfNone};
ghost use Rattle.std.specs.Int.{bit_at};
ghost use Rattle.place_numbers.specs.Bits.{FirstBit, LastBit};

/// The place of the first bit, `from` or after it, that is 1.
pub fn first_bit(word: u64, from: usize) -> Option<usize>
    requires { from < 64 }
    ensures first { IfSome result (λ at. FirstBit word from at) }
    ensures none { IfNone result ((i : ℕ) → from ≤ i → bit_at word i ≡ 0) }
{
    let rest = word >> from;
    if rest == 0 {
        None
    } else {
        Some(from + rest.trailing_zeros() as usize)
    }
}

/// The place of the last bit before `end` that is 1.
pub fn last_bit(word: u64, end: usize) -> Option<usize>
    requires some { 0 < end }
    requires inside { end ≤ 64 }
    ensures last { IfSome result (λ at. LastBit word end at) }
    ensures none { IfNone result ((i : ℕ) → i < end → bit_at word i ≡ 0) }
{
    let front = word & u64::MAX >> (64 - end);
    if front == 0 {
        None
    } else {
        Some(front.ilog2() as usize)
    }
}

/// The bits of a word from a place on, and after them those of the next word.
pub fn bits_from(word: u64, next: u64, place: usize) -> u64
    requires { place < 64 }
    ensures word { (i : ℕ) → place + i < 64 → bit_at result i ≡ bit_at word (place + i) }
    ensures next { (i : ℕ) → 64 ≤ place + i → i < 64 → bit_at result i ≡ bit_at next (place + i - 64) }
{
    if place == 0 {
        word
    } else {
        word >> place | next << (64 - place)
    }
}

/// The word with so many of these bits from a place on.
pub fn with_bits(word: u64, place: usize, count: usize, bits: u64) -> u64
    requires some { 0 < count }
    requires inside { place + count ≤ 64 }
    ensures here { (i : ℕ) → i < count → bit_at result (place + i) ≡ bit_at bits i }
    ensures before { (i : ℕ) → i < place → bit_at result i ≡ bit_at word i }
    ensures after { (i : ℕ) → place + count ≤ i → i < 64 → bit_at result i ≡ bit_at word i }
{
    let mask = u64::MAX >> (64 - count) << place;
    word & !mask | bits << place & mask
}
