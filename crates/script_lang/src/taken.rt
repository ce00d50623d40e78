//! What a variable takes.

ghost use Rattle.std.specs.Prelude.{◌≡◌};
ghost use Rattle.script_lang.specs.Taken.{first_number};

use mac_base::{Reply, Results};

/// What a variable takes that a reply is assigned to: the first result as a number, the number of blocks where the
/// call shows blocks, and 0 where it was refused or gives a code, bytes, a type, what a resource is called, or nothing.
pub fn first_number(reply: &Reply) -> u32
    ensures { result ≡ first_number reply.now.outcome }
{
    match &reply.outcome {
        Ok(Results::Handle(handle)) => handle.number(),
        Ok(Results::Pointer(pointer)) => pointer.number(),
        Ok(Results::Address(number) | Results::Number(number)) => *number,
        Ok(Results::TwoNumbers(first, _)) => *first,
        Ok(Results::Blocks(blocks)) => u32::try_from(blocks.as_slice().len()).unwrap_or(u32::MAX),
        Ok(Results::Nothing | Results::Code(_) | Results::Bytes(_)) => 0,
        Ok(Results::Kind(_) | Results::Info(_)) | Err(_) => 0,
    }
}
