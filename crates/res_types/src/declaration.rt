//! A declared type, and its values.

ghost use Rattle.std.specs.Prelude.{◌≡◌, length, IfErr, IfOk};
ghost use Rattle.res_types.specs.Bits.{byte_bits};
ghost use Rattle.res_types.specs.Reading.{Gives, with_front};
ghost use Rattle.res_types.specs.Writing.{with_bits};
ghost use Rattle.res_types.specs.Meaning.{HasNoBytes, decode, encode, read_tail, write_tail};

use crate::bits::{bits_of, bytes_of};
use crate::field::{Field, TextForm, TextStyle};
use crate::reading::{End, read, read_list, read_whole_text};
use crate::stop::Stop;
use crate::value::Part;
use crate::writing::{write, write_list, write_whole_text};
use std::alloc::Global;

/// What goes on to the last bit.
#[derive(Debug, Drop)]
pub enum Tail {
    /// Nothing: the fields are all.
    Nothing,
    /// A text: `string` and `hex string` without a length.
    Text(TextStyle),
    /// Elements, each of these fields.
    Elements(Field),
}

/// A type as it is declared.
#[derive(Debug, Drop)]
pub struct Declaration {
    pub fields: Field,
    pub tail: Tail,
}

impl Declaration {
    /// Reads the tail.
    fn read_tail<'a>(
        &self,
        alloc: Global,
        whole: usize,
        bits: &'a [bool],
        parts: &mut Vec<Part>,
    ) -> Result<&'a [bool], Stop>
        ensures { Gives (λ rest. (parts.new.items, rest.now)) result (with_front parts.old.items (read_tail whole self.now.tail bits.now)) }
    {
        match &self.tail {
            Tail::Nothing => Ok(bits),
            Tail::Text(_) => read_whole_text(alloc, bits, parts),
            Tail::Elements(body) => read_list(body, End::Whole, whole, bits, parts),
        }
    }

    /// The parts that these bits have, all of them.
    #[tactic(auto, unfolding(crate::specs::Meaning::decode), using(crate::proofs::Steps::reads_on))]
    fn parts_of(&self, alloc: Global, bits: &[bool]) -> Result<Vec<Part>, Stop>
        ensures { Gives (λ parts. parts.items) result (decode self.now bits.now) }
    {
        let mut parts = Vec::new(alloc);
        let rest = read(&self.fields, bits.len(), bits, &mut parts)?;
        let rest = self.read_tail(alloc, bits.len(), rest, &mut parts)?;
        if rest.is_empty() {
            Ok(parts)
        } else {
            Err(Stop::Unfit(rest.len()))
        }
    }

    /// The value of this type that has these bytes. `Unfit` says how many bits are left where they are none: the first
    /// field that isn't there begins with them.
    #[tactic(auto, using(crate::proofs::WholeLaws::decoded_encodes))]
    pub fn decode(&self, alloc: Global, bytes: &[u8]) -> Result<Vec<Part>, Stop>
        ensures exact { Gives (λ parts. parts.items) result (decode self.now (byte_bits bytes.now)) }
        ensures bytes { IfOk result (λ parts. encode self.now parts.items ≡ Ok (byte_bits bytes.now)) }
    {
        let bits = bits_of(alloc, bytes)?;
        let parts = self.parts_of(alloc, bits.as_slice())?;
        Ok(parts)
    }

    /// Writes the tail.
    fn write_tail<'a>(&self, bits: &mut Vec<bool>, parts: &'a [Part]) -> Result<&'a [Part], Stop>
        ensures { Gives (λ rest. (bits.new.items, rest.now)) result (with_bits bits.old.items (write_tail self.now.tail (length bits.old.items) parts.now)) }
    {
        match &self.tail {
            Tail::Nothing => Ok(parts),
            Tail::Text(_) => write_whole_text(bits, parts),
            Tail::Elements(body) => write_list(body, bits, parts),
        }
    }

    /// The bits of a value of this type.
    #[tactic(auto, unfolding(crate::specs::Meaning::encode), using(crate::proofs::WritingSteps::writes_on))]
    fn bits_in(&self, alloc: Global, parts: &[Part]) -> Result<Vec<bool>, Stop>
        ensures { Gives (λ bits. bits.items) result (encode self.now parts.now) }
    {
        let mut bits = Vec::new(alloc);
        let rest = write(&self.fields, &mut bits, parts)?;
        let rest = self.write_tail(&mut bits, rest)?;
        if rest.is_empty() {
            Ok(bits)
        } else {
            Err(Stop::Unfit(rest.len()))
        }
    }

    /// The bytes of a value of this type. `Unfit` says how many parts are left where they are none: of 0, that the bits
    /// aren't whole bytes.
    pub fn encode(&self, alloc: Global, parts: &[Part]) -> Result<Vec<u8>, Stop>
        ensures bytes { IfOk result (λ bytes. encode self.now parts.now ≡ Ok (byte_bits bytes.items)) }
        ensures unfit { IfErr result (HasNoBytes self.now parts.now) }
    {
        let bits = self.bits_in(alloc, parts)?;
        match bytes_of(alloc, &bits)? {
            Some(bytes) => Ok(bytes),
            None => Err(Stop::Unfit(0)),
        }
    }
}

#[cfg(test)]
mod tests {
    use super::*;
    use crate::field::{Count, CountSize};
    use std::test::Fail;

    #[test]
    fn string_list(rt: HostRuntime) -> Result<(), Fail> {
        let alloc = rt.alloc();
        let body = Box::new(
            alloc,
            Field::Text(TextForm::Counted(CountSize::Byte), TextStyle::Letters),
        )?;
        let nothing = Box::new(alloc, Field::Nothing)?;
        let count = Count {
            size: CountSize::Integer,
            less_one: false,
        };
        let declaration = Declaration {
            fields: Field::Counted(count, nothing, body),
            tail: Tail::Nothing,
        };
        let bytes = b"\x00\x02\x02Hi\x00";
        let parts = declaration.decode(alloc, bytes)?;
        assert_eq!(rt; parts.len(), 3);
        let again = declaration.encode(alloc, &parts)?;
        assert_eq!(rt; again.as_slice(), bytes.as_slice());
        Ok(())
    }
}
