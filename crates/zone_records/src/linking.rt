//! Whether the blocks of a zone that others wrote and its slots say each other, and nothing could be joined or cut.

ghost use Rattle.std.specs.Prelude.{◌≡◌, ℕ, ◌↔◌, ◌+◌, ◌<◌, ◌^◌, length, IfNone, IfSome, IsTrue};
ghost use Rattle.mac_base.specs.HeadKind.{Shape, head_size, master_length, slot_count};
ghost use Rattle.mac_base.specs.Suits.{has_length};
ghost use Rattle.block_bytes.specs.declared.header.Role.TheVariants.{Free};
ghost use Rattle.block_bytes.specs.Layout.{BlockAt, header_of, size_of};
ghost use Rattle.zone_records.specs.Adopting.{HasBlock};
ghost use Rattle.zone_records.specs.Linking.{AreRight, Keeps, KeptAs, SlotsKeep, TightAs, free_count, free_of, full_count, one_free, one_full, one_handle, said_of};
ghost use Rattle.zone_records.specs.Reading.{AreSound, content_in, records_in};
ghost use Rattle.zone_records.specs.Slots.{slots_of, slots_of_zone};
ghost use Rattle.zone_records.specs.Word.{slots_in};

use crate::slot::Slot;
use block_bytes::{Blocks, Header, Role};
use byteorder::{BigEndian, ByteOrder};
use mac_base::block::HeadKind;
use mac_base::size::{SLOT_COUNT, ZONE_HEADER, need_for};

/// Whether a handle has a block whose contents begin at an address.
fn has_block(blocks: &Blocks, handle: u32, contents: u32) -> bool
    requires { AreSound blocks.now }
    ensures { IsTrue result ↔ HasBlock (records_in blocks.now) handle contents }
{
    let spec = blocks.spec();
    let head = spec.heads().head_size();
    if contents < head {
        return false;
    }
    match blocks.owner_at(contents - head) {
        Some(offset) => spec.base() + offset == handle,
        None => false,
    }
}

/// Whether what the slot of a handle says is the handle's block, if it says an address.
fn keeps(blocks: &Blocks, handle: u32, said: Slot) -> bool
    requires { AreSound blocks.now }
    ensures { IsTrue result ↔ Keeps (records_in blocks.now) handle said }
{
    match said {
        Slot::Full(_, contents) => has_block(blocks, handle, contents),
        Slot::Free(_) | Slot::Empty => true,
    }
}

/// One for a slot that says an address, and 0 for any other.
fn one_full(slot: Slot) -> u32
    ensures { result ≡ one_full slot }
{
    match slot {
        Slot::Full(_, _) => 1,
        Slot::Free(_) | Slot::Empty => 0,
    }
}

/// One for a free slot, and 0 for any other.
fn one_free(slot: Slot) -> u32
    ensures { result ≡ one_free slot }
{
    match slot {
        Slot::Free(_) => 1,
        Slot::Empty | Slot::Full(_, _) => 0,
    }
}

/// How many slots of a block say an address, and how many are free.
#[derive(Clone, Copy)]
struct Counts {
    full: u32,
    free: u32,
}

/// The counts of the slots of a master block with these contents, the first at an address, if each that says an address
/// says its handle's block.
fn kept_slots(blocks: &Blocks, first: u32, words: &[u8]) -> Option<Counts>
    requires sound { AreSound blocks.now }
    requires long { length words.now ≡ master_length }
    requires low { first + master_length < 2 ^ 32 }
    ensures kept { IfSome result (λ counts. SlotsKeep blocks.now slot_count first words.now) }
    ensures full { IfSome result (λ counts. counts.full ≡ full_count (slots_in blocks.now.heads slot_count words.now)) }
    ensures free { IfSome result (λ counts. counts.free ≡ free_count (slots_in blocks.now.heads slot_count words.now)) }
    ensures none { IfNone result (SlotsKeep blocks.now slot_count first words.now → ⊥) }
{
    let heads = blocks.spec().heads();
    let mut full = 0;
    let mut free = 0;
    for index in 0..SLOT_COUNT {
        let place = 4 * index;
        let word = BigEndian::read_u32(&words[place as usize..]);
        let said = Slot::read(heads, word);
        if !keeps(blocks, first + place, said) {
            return None;
        }
        full += one_full(said);
        free += one_free(said);
    }
    Some(Counts { full, free })
}

/// The counts of the slots of the block at an address, which is for this, if each that says an address says its
/// handle's block.
fn kept_at(blocks: &Blocks, at: u32, role: Role) -> Option<Counts>
    requires sound { AreSound blocks.now }
    requires block { BlockAt blocks.now at }
    requires role { (b : BlockAt blocks.now at) → role ≡ b.here.role }
    ensures kept { IfSome result (λ counts. (b : BlockAt blocks.now at) → KeptAs blocks.now at b.here.role b.here.contents) }
    ensures full { IfSome result (λ counts. (b : BlockAt blocks.now at) (x : ℕ) → counts.full ≡ length (said_of (slots_of x (content_in blocks.now.heads blocks.now.base b.here.role b.here.contents)))) }
    ensures free { IfSome result (λ counts. (b : BlockAt blocks.now at) (x : ℕ) → counts.free ≡ length (free_of (slots_of x (content_in blocks.now.heads blocks.now.base b.here.role b.here.contents)))) }
    ensures none { IfNone result ((b : BlockAt blocks.now at) → KeptAs blocks.now at b.here.role b.here.contents → ⊥) }
{
    match role {
        Role::Master => {
            let first = at + blocks.spec().heads().head_size();
            kept_slots(blocks, first, blocks.contents(at))
        }
        Role::Free | Role::Fixed | Role::Relocatable(_, _) => Some(Counts { full: 0, free: 0 }),
    }
}

/// One for a handle's block, and 0 for any other.
fn one_handle(role: Role) -> u32
    ensures { result ≡ one_handle role }
{
    match role {
        Role::Relocatable(_, _) => 1,
        Role::Free | Role::Fixed | Role::Master => 0,
    }
}

/// Whether a block is the smallest for its contents, or only less than a smallest block larger.
fn has_length(heads: HeadKind, size: u32, contents: u32) -> bool
    requires { contents + head_size heads + 3 < 2 ^ 32 }
    ensures { (s : Shape) → s.heads ≡ heads → result ≡ has_length s size contents }
{
    let need = need_for(heads, contents);
    need <= size && size - need < heads.smallest_block()
}

/// Whether a free block is at an address.
fn is_free(blocks: &Blocks, at: u32) -> bool
    requires { BlockAt blocks.now at }
    ensures { (b : BlockAt blocks.now at) → IsTrue result ↔ b.here.role ≡ Free }
{
    match blocks.entry_at(at).role {
        Role::Free => true,
        Role::Fixed | Role::Master | Role::Relocatable(_, _) => false,
    }
}

/// Whether the block at an address, with this header, can't be joined with the next, and can't be cut.
fn is_tight(blocks: &Blocks, at: u32, header: Header) -> bool
    requires sound { AreSound blocks.now }
    requires block { BlockAt blocks.now at }
    requires header { (b : BlockAt blocks.now at) → header ≡ header_of blocks.now.heads b.here }
    ensures { (b : BlockAt blocks.now at) → IsTrue result ↔ TightAs blocks.now at b.here.role (size_of blocks.now.heads b.here) (length b.here.contents) }
{
    match header.role {
        Role::Free => match blocks.walk(at) {
            Some(next) => !is_free(blocks, next),
            None => true,
        },
        Role::Fixed | Role::Master | Role::Relocatable(_, _) => {
            let heads = blocks.spec().heads();
            let contents = header.size - heads.head_size() - header.correction;
            has_length(heads, header.size, contents)
        }
    }
}

/// How many slots of a zone are free, if its blocks and its slots say each other, and no block can be joined or cut.
/// Slots that say their handles' blocks say different ones. So where these are as many as all blocks of handles, each
/// of the blocks is said by its slot.
pub(crate) fn free_if_right(blocks: &Blocks) -> Option<u32>
    requires { AreSound blocks.now }
    ensures right { IfSome result (λ free. AreRight blocks.now) }
    ensures free { IfSome result (λ free. free ≡ length (free_of (slots_of_zone (records_in blocks.now)))) }
    ensures none { IfNone result (AreRight blocks.now → ⊥) }
{
    let end = blocks.end();
    let mut free = 0;
    let mut full = 0;
    let mut handles = 0;
    let mut at = blocks.spec().base() + ZONE_HEADER;
    while at < end {
        let header = blocks.entry_at(at);
        let counts = kept_at(blocks, at, header.role)?;
        if !is_tight(blocks, at, header) {
            return None;
        }
        full += counts.full;
        free += counts.free;
        handles += one_handle(header.role);
        at += header.size;
    }
    if full < handles {
        return None;
    }
    Some(free)
}
