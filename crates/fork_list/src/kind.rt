//! The words for a type.

ghost use Rattle.std.specs.Prelude.{◌≡◌, ℕ, ◌+◌, ◌*◌, ◌<◌, ◌↔◌, IfNone, IfSome, Some, List, [], ◌∷◌, ◌++◌, length, All};
ghost use Rattle.std.specs.Option.{SomeIff};
ghost use Rattle.std.specs.Char.{digit_value};
ghost use Rattle.fork_list.specs.Kind.{ShowsFirst, ShowsBare, Quotes, ShowsKind, in_quotes};

use mac_base::resource::ResType;

/// How many bytes a type has.
const KIND_LENGTH: usize = 4;

/// The value of a hexadecimal digit of either case.
fn hexadecimal_value(digit: u8) -> Option<u8>
    ensures { SomeIff result (digit_value digit < 16) (digit_value digit) }
{
    match digit {
        b'0'..=b'9' => Some(digit - b'0'),
        b'A'..=b'F' => Some(digit - b'A' + 10),
        b'a'..=b'f' => Some(digit - b'a' + 10),
        _ => None,
    }
}

/// The byte with these two hexadecimal digits.
pub(crate) fn byte_of(high: u8, low: u8) -> Option<u8>
    ensures { SomeIff result ((digit_value high < 16) × (digit_value low < 16)) (16 * digit_value high + digit_value low) }
{
    let high = hexadecimal_value(high)?;
    let low = hexadecimal_value(low)?;
    Some(16 * high + low)
}

/// The byte that `\x` and this text after it show first, and what is after its digits.
fn hexadecimal_byte(text: &[u8]) -> Option<(u8, &[u8])>
    ensures shown { IfSome result (λ first. ShowsFirst (92 ∷ 120 ∷ text.now) first.0 first.1.now) }
    ensures none { IfNone result ((byte : ℕ) → (rest : List ℕ) → ¬ ShowsFirst (92 ∷ 120 ∷ text.now) byte rest) }
{
    match text {
        [high, low, rest @ ..] => Some((byte_of(*high, *low)?, rest)),
        _ => None,
    }
}

/// The byte that a backslash and this text after it show first, and what is after both.
fn escaped_byte(text: &[u8]) -> Option<(u8, &[u8])>
    ensures shown { IfSome result (λ first. ShowsFirst (92 ∷ text.now) first.0 first.1.now) }
    ensures none { IfNone result ((byte : ℕ) → (rest : List ℕ) → ¬ ShowsFirst (92 ∷ text.now) byte rest) }
{
    match text {
        [b'x', rest @ ..] => hexadecimal_byte(rest),
        [byte @ (b'\\' | b'\''), rest @ ..] => Some((*byte, rest)),
        _ => None,
    }
}

/// The byte that a text shows first, and the text after it.
fn first_byte(text: &[u8]) -> Option<(u8, &[u8])>
    ensures shown { IfSome result (λ first. ShowsFirst text.now first.0 first.1.now) }
    ensures none { IfNone result ((byte : ℕ) → (rest : List ℕ) → ¬ ShowsFirst text.now byte rest) }
{
    match text {
        [b'\\', rest @ ..] => escaped_byte(rest),
        [b'\'', ..] => None,
        [byte @ b' '..=b'~', rest @ ..] => Some((*byte, rest)),
        [byte @ 128..=255, rest @ ..] => Some((*byte, rest)),
        _ => None,
    }
}

/// The text between single quotes, or all of it where none are around it.
fn without_quotes(text: &[u8]) -> &[u8]
    ensures quotes { Quotes text.now result.now }
    ensures between { (inner : List ℕ) → text.now ≡ 39 ∷ (inner ++ 39 ∷ []) → result.now ≡ inner }
{
    match text {
        [b'\'', inner @ .., b'\''] => inner,
        _ => text,
    }
}

/// The type that a text without quotes shows. Blanks make its bytes four.
fn bare_kind(text: &[u8]) -> Option<ResType>
    ensures { (kind : List ℕ) → (result ≡ Some kind) ↔ ShowsBare text.now kind }
{
    if text.is_empty() {
        return None;
    }
    let mut rest = text;
    let mut kind = [b' '; KIND_LENGTH];
    for i in 0..KIND_LENGTH {
        if !rest.is_empty() {
            let Some((byte, after)) = first_byte(rest) else {
                return None;
            };
            kind[i] = byte;
            rest = after;
        }
    }
    if !rest.is_empty() {
        return None;
    }
    Some(ResType::new(kind))
}

/// The type that a text in MacRoman shows, as a list of resources shows it: four bytes, where a letter stands for
/// itself, and each byte may be written `\xHH` (`\'` and `\\` for a quote and a backslash). There may be single quotes
/// around it, and blanks at its end may be left out. None where the text shows no byte or more than four, or isn't such
/// a text.
pub fn kind_of(text: &[u8]) -> Option<ResType>
    ensures exact { (kind : List ℕ) → (result ≡ Some kind) ↔ ShowsKind text.now kind }
    ensures listed { (kind : List ℕ) → length kind ≡ 4 → All (λ byte. byte < 256) kind → text.now ≡ in_quotes kind → result ≡ Some kind }
{
    bare_kind(without_quotes(text))
}
