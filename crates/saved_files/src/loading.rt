//! Files are made of the bytes that were saved of them.

ghost use Rattle.std.specs.Prelude.{◌≡◌, ◌≤◌, ◌+◌, ◌++◌, ◌∷◌, [], ◌↔◌, Bool, List, ℕ, length, map, IfOk, IfSome, IsErrOf, IsTrue, MatchResult, OnOk};
ghost use Rattle.std.specs.List.{AllByRecursion, flat_map};
ghost use Rattle.std.specs.Option.{IsSomeAnd};
ghost use Rattle.fork_bytes.specs.declared.place.Place.{Place};
ghost use Rattle.mac_base.specs.ZoneState.{ZoneState};
ghost use Rattle.res_files.specs.Standing.{most_files};
ghost use Rattle.res_table.specs.OpenFiles.{OpenFiles, is_open};
ghost use Rattle.res_update.specs.Device.{Disk};
ghost use Rattle.saved_files.specs.Parts.{CanOpen, current_in, saved_in, used};
ghost use Rattle.row_image.specs.Images.{HasImages};
ghost use Rattle.saved_files.specs.Saved.{Saved, block_text, file_text, head_text, number_of, saved_text};
ghost use Rattle.saved_files.specs.Sound.{CanBeSaved, IsSavedAs, StandOnForks, disk_of};

use crate::blocks::block_at;
use crate::saving::save;
use crate::sound::are_within;
use fork_bytes::place::Place;
use fork_disk::MemDisk;
use fork_disk::store::PlainStore;
use linked_zone::LinkedZone;
use mac_base::error::HostFull;
use res_files::MOST_FILES;
use res_table::chain::{Chain, ResourceTable};
use row_image::{SaveFault, table_of};
use std::alloc::Global;

/// How many bytes of the first block are before the numbers of files.
const FRONT: usize = 7;

/// What the first block says: whether calls load what they get, the current file, and the numbers of the open files.
#[derive(Clone, Copy)]
struct Head<'a> {
    loads: bool,
    current: Option<u8>,
    numbers: &'a [u8],
}

/// Files that were saved: the open ones, the stores of all in the order of numbers, and whether calls load what they
/// get.
#[derive(Drop)]
pub struct SavedFiles {
    pub chain: Chain<Place>,
    pub stores: Vec<PlainStore<MemDisk>>,
    pub loads: bool,
}

/// The number of a file, and none for 0.
fn number_in(byte: u8) -> Option<u8>
    ensures { result ≡ current_in byte }
{
    if byte == 0 { None } else { Some(byte) }
}

/// What the first block says, whatever its mark.
fn head_in(block: &[u8]) -> Option<Head<'_>>
    ensures { (loads : Bool) (current : ℕ) (numbers : List ℕ) → block.now ≡ head_text loads current numbers
        → IsSomeAnd result (λ head. (head.loads ≡ loads) × (head.current ≡ current_in current) × (head.numbers.now ≡ numbers)) }
{
    if block.len() < FRONT {
        return None;
    }
    Some(Head {
        loads: block[5] == 1,
        current: number_in(block[6]),
        numbers: &block[FRONT..],
    })
}

/// Adds a store in memory with a copy of a fork.
fn push_copy(
    alloc: Global,
    stores: &mut Vec<PlainStore<MemDisk>>,
    fork: &[u8],
) -> Result<(), HostFull>
    ensures disks { OnOk result (map disk_of stores.new.items ≡ map disk_of stores.old.items ++ fork.now ∷ []) }
    ensures count { OnOk result (length stores.new.items ≡ length stores.old.items + 1) }
{
    let copy = Vec::from_slice(alloc, fork)?;
    stores.push(PlainStore {
        disk: MemDisk::from_bytes(copy),
    })?;
    Ok(())
}

/// The forks in the order of numbers, and the bytes after them.
fn stores_in(alloc: Global, bytes: &[u8]) -> Result<(Vec<PlainStore<MemDisk>>, &[u8]), SaveFault>
    ensures again { (disks : List Disk) (rest : List ℕ) → length disks ≡ most_files → bytes.now ≡ flat_map block_text disks ++ rest
        → MatchResult result (λ found. (map disk_of found.0.items ≡ disks) × (found.1.now ≡ rest)) (λ fault. fault ≡ SaveFault.HostFull) }
    ensures count { IfOk result (λ found. length found.0.items ≡ most_files) }
{
    let mut stores = Vec::new(alloc);
    let mut rest = bytes;
    for _ in 0..MOST_FILES {
        let Some((fork, after)) = block_at(rest) else {
            return Err(SaveFault::NotSound);
        };
        push_copy(alloc, &mut stores, fork)?;
        rest = after;
    }
    Ok((stores, rest))
}

/// Whether a file of this number and table can be opened after these, on its store.
fn can_open(
    chain: &Chain<Place>,
    stores: &[PlainStore<MemDisk>],
    number: u8,
    table: &ResourceTable<Place>,
) -> bool
    ensures { IsTrue result ↔ CanOpen (map disk_of stores.now) chain.now number table.now }
{
    if number == 0 || number as usize > stores.len() || chain.is_open(number) {
        return false;
    }
    are_within(&table.rows, stores[number as usize - 1].disk.bytes().len())
}

/// The open files with these numbers, and the bytes after them.
fn chain_in<'a>(
    alloc: Global,
    stores: &[PlainStore<MemDisk>],
    numbers: &[u8],
    bytes: &'a [u8],
) -> Result<(Chain<Place>, &'a [u8]), SaveFault>
    requires { length stores.now ≤ most_files }
    ensures stands { IfOk result (λ found. StandOnForks (map disk_of stores.now) found.0) }
    ensures again { (want : OpenFiles Place) → StandOnForks (map disk_of stores.now) want → AllByRecursion HasImages want.files
        → numbers.now ≡ map number_of want.files → bytes.now ≡ flat_map file_text want.files
        → MatchResult result (λ found. found.0.files ≡ want.files) (λ fault. fault ≡ SaveFault.HostFull) }
{
    let mut chain = Chain::new(alloc);
    let mut rest = bytes;
    for number in numbers {
        let Some((image, after)) = block_at(rest) else {
            return Err(SaveFault::NotSound);
        };
        let table = table_of(alloc, image)?;
        if !can_open(&chain, stores, *number, &table) {
            return Err(SaveFault::NotSound);
        }
        chain.open(*number, table)?;
        rest = after;
    }
    Ok((chain, rest))
}

/// Whether a file is open, where one is to be the current one.
fn can_use(chain: &Chain<Place>, current: Option<u8>) -> bool
    ensures { IsTrue result ↔ IfSome current (λ number. IsTrue (is_open number chain.now)) }
{
    match current {
        Some(number) => chain.is_open(number),
        None => true,
    }
}

/// The chain with this current file, if there is one.
fn with_current(mut chain: Chain<Place>, current: Option<u8>) -> Chain<Place>
    ensures { result ≡ used current chain }
{
    if let Some(number) = current {
        chain.use_file(number);
    }
    chain
}

/// The files that bytes say, whatever their handles.
fn files_in(alloc: Global, bytes: &[u8]) -> Result<SavedFiles, SaveFault>
    ensures stands { IfOk result (λ files. StandOnForks (map disk_of files.stores.items) files.chain) }
    ensures count { IfOk result (λ files. length files.stores.items ≡ most_files) }
    ensures again { (s : Saved) (zone : ZoneState) → CanBeSaved zone s → bytes.now ≡ saved_text s
        → MatchResult result (λ files. saved_in files ≡ s) (λ fault. fault ≡ SaveFault.HostFull) }
{
    let Some((first, rest)) = block_at(bytes) else {
        return Err(SaveFault::NotSound);
    };
    let Some(head) = head_in(first) else {
        return Err(SaveFault::NotSound);
    };
    let (stores, rest) = stores_in(alloc, rest)?;
    let (chain, _) = chain_in(alloc, &stores, head.numbers, rest)?;
    if !can_use(&chain, head.current) {
        return Err(SaveFault::NotSound);
    }
    Ok(SavedFiles {
        chain: with_current(chain, head.current),
        stores,
        loads: head.loads,
    })
}

/// The files of which these bytes were saved over a zone, as they were. The fault is NotSound exactly where no files
/// that can be saved over it are saved as these bytes.
pub fn load(alloc: Global, zone: &LinkedZone, bytes: &[u8]) -> Result<SavedFiles, SaveFault>
    ensures saved { IfOk result (λ files. IsSavedAs zone.now (saved_in files) bytes.now) }
    ensures same { IfOk result (λ files. (s : Saved) → IsSavedAs zone.now s bytes.now → saved_in files ≡ s) }
    ensures refused { IsErrOf result SaveFault.NotSound → (s : Saved) → ¬ IsSavedAs zone.now s bytes.now }
{
    let files = files_in(alloc, bytes)?;
    let again = save(alloc, zone, &files.chain, &files.stores, files.loads)?;
    if again.as_slice() != bytes {
        return Err(SaveFault::NotSound);
    }
    Ok(files)
}
