//! The bytes of the digits.

ghost use Rattle.std.specs.Prelude.{◌≡◌, ◌<◌, ◌≤◌, length, IfOk, IfSome};
ghost use Rattle.mac_files.specs.BinHexLeft.{Takes, bytes_left};

use crate::bin_hex::digits::{Digits, Placed};
use crate::bin_hex::fault::BinHexFault;

/// The digit whose low bits belong to the next byte: the second or the third of four.
#[derive(Clone, Copy)]
pub enum Held {
    Nothing,
    Second(u8),
    Third(u8),
}

/// The bytes that four digits each stand for.
#[derive(Drop)]
pub struct Packed<'a> {
    pub digits: Digits<'a>,
    pub held: Held,
}

impl Packed<'_> {
    /// Takes the next byte, or nothing where the digits end.
    pub fn next_byte(&mut self) -> Result<Option<Placed>, BinHexFault>
        ensures takes { Takes (bytes_left self.old) (bytes_left self.new) self.new.digits.at result }
        ensures further { IfOk result (λ byte. IfSome byte (λ _. self.old.digits.at < self.new.digits.at)) }
        ensures inside { IfOk result (λ byte. IfSome byte (λ _. self.new.digits.at ≤ length self.new.digits.text.now)) }
        ensures same_text { self.new.digits.text.now ≡ self.old.digits.text.now }
    {
        let Some(digit) = self.digits.next_digit()? else {
            return Ok(None);
        };
        let value = match self.held {
            Held::Nothing => {
                let Some(second) = self.digits.next_digit()? else {
                    return Ok(None);
                };
                self.held = Held::Second(second.value);
                let value = digit.value * 4 + second.value / 16;
                return Ok(Some(Placed {
                    value,
                    at: second.at,
                }));
            }
            Held::Second(second) => {
                self.held = Held::Third(digit.value);
                second % 16 * 16 + digit.value / 4
            }
            Held::Third(third) => {
                self.held = Held::Nothing;
                third % 4 * 64 + digit.value
            }
        };
        Ok(Some(Placed {
            value,
            at: digit.at,
        }))
    }
}
