//! The digits of a text.

ghost use Rattle.std.specs.Prelude.{◌≡◌, ◌<◌, ◌≤◌, length, IfOk, IfSome};
ghost use Rattle.mac_files.specs.BinHex.{digit_of};
ghost use Rattle.mac_files.specs.BinHexLeft.{Takes, digits_left};

use crate::bin_hex::fault::BinHexFault;
use crate::bin_hex::find::is_skipped;

/// Something that was read, and the offset in the text of the character that completes it.
#[derive(Clone, Copy, Debug)]
pub struct Placed {
    pub value: u8,
    pub at: usize,
}

/// What each character up to the last digit stands for, and 64 where it is no digit.
const VALUES: [u8; 115] = [
    64, 64, 64, 64, 64, 64, 64, 64, 64, 64, 64, 64, 64, 64, 64, 64, 64, 64, 64, 64, 64, 64, 64, 64,
    64, 64, 64, 64, 64, 64, 64, 64, 64, 0, 1, 2, 3, 4, 5, 6, 7, 8, 9, 10, 11, 12, 64, 64, 13, 14,
    15, 16, 17, 18, 19, 64, 20, 21, 64, 64, 64, 64, 64, 64, 22, 23, 24, 25, 26, 27, 28, 29, 30, 31,
    32, 33, 34, 35, 36, 64, 37, 38, 39, 40, 41, 42, 43, 64, 44, 45, 46, 47, 64, 64, 64, 64, 48, 49,
    50, 51, 52, 53, 54, 64, 55, 56, 57, 58, 59, 60, 64, 64, 61, 62, 63,
];

/// What a digit stands for, from 0 to 63, or None of a character that is no digit.
pub fn digit_value(character: u8) -> Option<u8>
    ensures value { result ≡ digit_of character }
    ensures small { IfSome result (λ value. value < 64) }
{
    let place = character as usize;
    if place >= VALUES.len() {
        return None;
    }
    let value = VALUES[place];
    if value < 64 { Some(value) } else { None }
}

/// The digits of a text from an offset on, up to a colon.
#[derive(Drop)]
pub struct Digits<'a> {
    pub text: &'a [u8],
    pub at: usize,
}

impl Digits<'_> {
    /// Takes the next digit, or nothing at the colon, where it stays.
    pub fn next_digit(&mut self) -> Result<Option<Placed>, BinHexFault>
        ensures takes { Takes (digits_left self.old) (digits_left self.new) self.new.at result }
        ensures small { IfOk result (λ digit. IfSome digit (λ d. d.value < 64)) }
        ensures further { IfOk result (λ digit. IfSome digit (λ _. self.old.at < self.new.at)) }
        ensures inside { IfOk result (λ digit. IfSome digit (λ _. self.new.at ≤ length self.new.text.now)) }
        ensures same_text { self.new.text.now ≡ self.old.text.now }
    {
        while self.at < self.text.len() {
            let found = self.text[self.at];
            if found == b':' {
                return Ok(None);
            }
            let at = self.at;
            self.at += 1;
            if !is_skipped(found) {
                let Some(value) = digit_value(found) else {
                    return Err(BinHexFault::NotADigit { at, found });
                };
                return Ok(Some(Placed { value, at }));
            }
        }
        Err(BinHexFault::NotClosed { at: self.at })
    }
}
