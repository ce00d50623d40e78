//! How much of a file is read.

ghost use Rattle.std.specs.Prelude.{◌≡◌, ◌++◌, IfOk, IfSome, codes};
ghost use Rattle.std.specs.Str.Parse.{IsNumeral, digits_value};
ghost use Rattle.clap.specs.Matches.{first_value, found_of};
ghost use Rattle.fork_words.specs.Sizes.{HasUnit, IsLimit, NamesSize};

use crate::fault::Fault;
use clap::ArgMatches;

/// How many bytes of a file are read where `--limit` doesn't say it.
pub const LIMIT: u64 = 1 << 30;

/// A word without its last letter, and how many bytes one of its number counts.
fn unit_of(word: &str) -> (&str, u64)
    ensures { HasUnit word.now result.0.now result.1 }
{
    if let Some(number) = word.strip_suffix("K") {
        (number, 1 << 10)
    } else if let Some(number) = word.strip_suffix("M") {
        (number, 1 << 20)
    } else if let Some(number) = word.strip_suffix("G") {
        (number, 1 << 30)
    } else {
        (word, 1)
    }
}

/// The number that digits are.
fn number_named(digits: &str) -> Option<u64>
    ensures { IfSome result (λ n. IsNumeral 10 digits.now × (n ≡ digits_value 10 digits.now)) }
{
    if digits.starts_with("+") {
        return None;
    }
    digits.parse().ok()
}

/// The size that a word names, in bytes.
fn size_named(word: &str) -> Option<u64>
    ensures { IfSome result (NamesSize word.now) }
{
    let (digits, unit) = unit_of(word);
    number_named(digits)?.checked_mul(unit)
}

/// How many bytes of a file are read.
pub(crate) fn limit_of(matches: &ArgMatches<'_>) -> Result<u64, Fault>
    ensures { IfOk result (IsLimit (first_value (found_of matches.now) (codes "limit"))) }
{
    match matches.get_str("limit") {
        None => Ok(LIMIT),
        Some(word) => size_named(word).ok_or(Fault::NoSize),
    }
}
