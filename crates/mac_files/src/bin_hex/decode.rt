//! The bytes that a text stands for.

ghost use Rattle.std.specs.Prelude.{◌≡◌, ◌<◌, ◌≤◌, ◌+◌, ◌++◌, length, replicate, slice_index, vec_len, vec_capacity, IfOk, IfSome, IsNone, ◌^◌};
ghost use Rattle.mac_files.specs.BinHex.{decoded_from, places_of};
ghost use Rattle.mac_files.specs.BinHexFiles.{IsDecoded};

use crate::bin_hex::fault::BinHexFault;
use crate::bin_hex::runs::{Run, Runs};
use std::alloc::{AllocError, Global};

/// The bytes, and how they end: at the offset of the closing colon, or by a fault.
#[derive(Drop)]
pub struct Decoded<'a> {
    pub text: &'a [u8],
    pub from: usize,
    pub bytes: Vec<u8>,
    pub ending: Result<usize, BinHexFault>,
}

/// How many bytes a text stands for from an offset on, if that is a number of the host.
pub fn decoded_length(text: &[u8], from: usize) -> Option<usize>
    ensures some { IfSome result (λ count. count ≡ length (decoded_from from text.now).values) }
    ensures none { IsNone result → 2 ^ 64 ≤ length (decoded_from from text.now).values }
{
    let mut runs = Runs::new(text, from);
    let mut count = 0usize;
    while let Ok(Some(run)) = runs.next_run() {
        count = count.checked_add(run.count as usize)?;
    }
    Some(count)
}

/// The offset in the text of the character that completes a byte.
pub fn place_of(text: &[u8], from: usize, index: usize) -> usize
    requires { index < length (decoded_from from text.now).values }
    ensures { result ≡ slice_index (places_of (decoded_from from text.now)) index }
{
    let mut runs = Runs::new(text, from);
    let mut before = index;
    while let Ok(Some(run)) = runs.next_run() {
        if before < run.count as usize {
            return run.at;
        }
        before -= run.count as usize;
    }
    text.len()
}

/// Adds a run where there is room for it.
fn push_run(bytes: &mut Vec<u8>, run: Run)
    requires { vec_len bytes.old + run.count ≤ vec_capacity bytes.old }
    ensures items { bytes.new.items ≡ bytes.old.items ++ replicate run.count run.value }
    ensures len { vec_len bytes.new ≡ vec_len bytes.old + run.count }
    ensures room { vec_capacity bytes.new ≡ vec_capacity bytes.old }
{
    for _ in 0..run.count {
        bytes.push_reserved(run.value);
    }
}

/// The bytes that a text stands for from an offset on, which are so many, in a block of memory of just that size.
pub fn decode(
    alloc: Global,
    text: &[u8],
    from: usize,
    count: usize,
) -> Result<Decoded<'_>, AllocError>
    requires { count ≡ length (decoded_from from text.now).values }
    ensures same_text { IfOk result (λ decoded. (decoded.text.now ≡ text.now) × (decoded.from ≡ from)) }
    ensures decoded { IfOk result IsDecoded }
    ensures room { IfOk result (λ decoded. vec_capacity decoded.bytes ≡ vec_len decoded.bytes) }
{
    let mut bytes = Vec::with_capacity(alloc, count)?;
    let mut runs = Runs::new(text, from);
    let ending = loop {
        match runs.next_run() {
            Ok(Some(run)) => push_run(&mut bytes, run),
            Ok(None) => break Ok(runs.packed.digits.at),
            Err(fault) => break Err(fault),
        }
    };
    Ok(Decoded {
        text,
        from,
        bytes,
        ending,
    })
}
