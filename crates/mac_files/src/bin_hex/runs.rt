//! The run-length code.

ghost use Rattle.std.specs.Prelude.{◌≡◌, ◌<◌, ◌≤◌, length, IfOk, IfSome};
ghost use Rattle.mac_files.specs.BinHex.{decoded_from};
ghost use Rattle.mac_files.specs.BinHexLeft.{TakesRun, runs_left};

use crate::bin_hex::digits::{Digits, Placed};
use crate::bin_hex::fault::BinHexFault;
use crate::bin_hex::packed::{Held, Packed};

/// The byte that is followed by a count.
const RUN: u8 = 0x90;

/// So many bytes that are equal, and the offset in the text of the character that completes them.
#[derive(Clone, Copy, Debug)]
pub struct Run {
    pub value: u8,
    pub count: u8,
    pub at: usize,
}

/// The bytes that the run-length code stands for.
#[derive(Drop)]
pub struct Runs<'a> {
    pub packed: Packed<'a>,
    pub last: Option<u8>,
}

impl<'a> Runs<'a> {
    /// The bytes of a text from an offset on.
    pub fn new(text: &'a [u8], at: usize) -> Runs<'a>
        ensures all { runs_left result ≡ decoded_from at text.now }
        ensures same_text { result.packed.digits.text.now ≡ text.now }
    {
        let digits = Digits { text, at };
        let packed = Packed {
            digits,
            held: Held::Nothing,
        };
        Runs { packed, last: None }
    }

    /// Takes the next bytes, which may be none, or nothing where the bytes end.
    pub fn next_run(&mut self) -> Result<Option<Run>, BinHexFault>
        ensures takes { TakesRun (runs_left self.old) (runs_left self.new) self.new.packed.digits.at result }
        ensures further { IfOk result (λ run. IfSome run (λ _. self.old.packed.digits.at < self.new.packed.digits.at)) }
        ensures inside { IfOk result (λ run. IfSome run (λ _. self.new.packed.digits.at ≤ length self.new.packed.digits.text.now)) }
        ensures same_text { self.new.packed.digits.text.now ≡ self.old.packed.digits.text.now }
    {
        let Some(byte) = self.packed.next_byte()? else {
            return Ok(None);
        };
        let Placed { value, at } = byte;
        if value != RUN {
            self.last = Some(value);
            return Ok(Some(Run {
                value,
                count: 1,
                at,
            }));
        }
        let Some(count) = self.packed.next_byte()? else {
            return Err(BinHexFault::NoCount { at });
        };
        if count.value == 0 {
            self.last = Some(RUN);
            return Ok(Some(Run {
                value: RUN,
                count: 1,
                at: count.at,
            }));
        }
        let Some(last) = self.last else {
            return Err(BinHexFault::NothingToRepeat { at });
        };
        Ok(Some(Run {
            value: last,
            count: count.value - 1,
            at: count.at,
        }))
    }
}
