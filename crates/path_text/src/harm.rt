//! Characters that do harm where they are shown.

ghost use Rattle.std.specs.Prelude.{◌≡◌};
ghost use Rattle.std.specs.Str.{chars};
ghost use Rattle.path_text.specs.Harm.{has_harmful, is_harmful};

/// Whether a character does harm where it is shown: a control character, which a terminal obeys; a separator of lines
/// or paragraphs; one that turns the direction of the text around it; or U+FEFF, which isn't seen.
pub fn is_harmful(character: char) -> bool
    ensures { result ≡ is_harmful character }
{
    matches!(
        character,
        '\u{0}'..='\u{1F}'
        | '\u{7F}'..='\u{9F}'
        | '\u{61C}'
        | '\u{200E}'..='\u{200F}'
        | '\u{2028}'..='\u{202E}'
        | '\u{2066}'..='\u{2069}'
        | '\u{FEFF}'
    )
}

/// Whether a name has such a character.
pub(crate) fn has_harmful(name: &str) -> bool
    ensures { result ≡ has_harmful name.now }
{
    for character in name.chars() {
        if is_harmful(character) {
            return true;
        }
    }
    false
}
