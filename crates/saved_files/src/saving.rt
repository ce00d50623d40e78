//! Files are saved. The bytes are these, and a number has its highest byte first:
//!
//! | Bytes | What |
//! |---|---|
//! | 8 | how many bytes the first block has: 7, and one for each open file |
//! | 4 | `MRst` |
//! | 1 | the version of the format: 1 |
//! | 1 | 1 if calls load what they get, else 0 |
//! | 1 | the number of the current file, or 0 |
//! | 1 each | the numbers of the open files, in the order of opening |
//! | 8, and so many | the fork of file 1 after its length, then that of file 2, and so on to 255, open or not |
//! | 8, and so many | for each open file, in the order of opening: its rows as a fork, after its length |
//!
//! In such a fork each resource has the type, the id, the name and the attributes of a row, resChanged among them. Its
//! bytes say where those of the row begin in the file's own fork (4), how many there are (4), and which handle the row
//! has (4), if it has one. The 240 extra bytes and the map's attributes are the file's.

ghost use Rattle.std.specs.Prelude.{◌≡◌, ◌++◌, length, map, unwrap_or, IfOk, IsErrOf, OnOk};
ghost use Rattle.std.specs.List.{AllByRecursion, flat_map};
ghost use Rattle.res_files.specs.Standing.{most_files};
ghost use Rattle.saved_files.specs.Saved.{block_text, file_text, head_text, number_of, saved_text};
ghost use Rattle.row_image.specs.Images.{HasImages, IsGroupedFile};
ghost use Rattle.saved_files.specs.Sound.{CanBeSaved, StandOnForks, disk_of};

use crate::blocks::push_block;
use crate::sound::{are_sound, has_current};
use fork_bytes::place::Place;
use fork_disk::MemDisk;
use fork_disk::store::PlainStore;
use linked_zone::LinkedZone;
use mac_base::error::HostFull;
use res_table::chain::{Chain, OpenFile};
use row_image::{SaveFault, image_of};
use std::alloc::Global;

/// What the first block begins with: a mark, and the version of the format.
pub(crate) const MARK: [u8; 5] = *b"MRst\x01";

/// The numbers of open files.
fn numbers_of(alloc: Global, files: &[OpenFile<Place>]) -> Result<Vec<u8>, HostFull>
    ensures { IfOk result (λ numbers. numbers.items ≡ map number_of files.now) }
{
    let mut numbers = Vec::with_capacity(alloc, files.len())?;
    for file in files {
        numbers.push(file.number)?;
    }
    Ok(numbers)
}

/// The first block.
fn head(alloc: Global, chain: &Chain<Place>, loads: bool) -> Result<Vec<u8>, HostFull>
    ensures { IfOk result (λ head. head.items ≡ head_text loads (unwrap_or chain.now.current 0) (map number_of chain.now.files)) }
{
    let numbers = numbers_of(alloc, chain.files())?;
    let mut head = Vec::from_slice(alloc, &MARK)?;
    head.push(u8::from(loads))?;
    head.push(chain.current().unwrap_or(0))?;
    head.extend_from_slice(&numbers)?;
    Ok(head)
}

/// Adds the blocks of forks.
fn push_forks(bytes: &mut Vec<u8>, stores: &[PlainStore<MemDisk>]) -> Result<(), HostFull>
    ensures { OnOk result (bytes.new.items ≡ bytes.old.items ++ flat_map block_text (map disk_of stores.now)) }
{
    for store in stores {
        push_block(bytes, store.disk.bytes())?;
    }
    Ok(())
}

/// Adds the blocks of open files.
fn push_files(
    alloc: Global,
    bytes: &mut Vec<u8>,
    files: &[OpenFile<Place>],
) -> Result<(), SaveFault>
    requires { AllByRecursion IsGroupedFile files.now }
    ensures added { OnOk result (bytes.new.items ≡ bytes.old.items ++ flat_map file_text files.now) }
    ensures have { OnOk result (AllByRecursion HasImages files.now) }
    ensures refused { IsErrOf result SaveFault.NotSound → ¬ AllByRecursion HasImages files.now }
{
    for file in files {
        let image = image_of(alloc, &file.table)?;
        push_block(bytes, &image)?;
    }
    Ok(())
}

/// The bytes of open files on these stores, over a zone. The fault is NotSound exactly where they can't be saved over
/// it: the rows of a file fit no fork, or a handle that is in the zone isn't live, or two rows have it, or files are open
/// and none is the current one.
pub fn save(
    alloc: Global,
    zone: &LinkedZone,
    chain: &Chain<Place>,
    stores: &[PlainStore<MemDisk>],
    loads: bool,
) -> Result<Vec<u8>, SaveFault>
    requires stands { StandOnForks (map disk_of stores.now) chain.now }
    requires count { length stores.now ≡ most_files }
    ensures saved { IfOk result (λ bytes. bytes.items ≡ saved_text (record { chain = chain.now; loads = loads; disks = map disk_of stores.now })) }
    ensures can { IfOk result (λ _. CanBeSaved zone.now (record { chain = chain.now; loads = loads; disks = map disk_of stores.now })) }
    ensures refused { IsErrOf result SaveFault.NotSound → ¬ CanBeSaved zone.now (record { chain = chain.now; loads = loads; disks = map disk_of stores.now }) }
{
    if !are_sound(chain, zone) || !has_current(chain) {
        return Err(SaveFault::NotSound);
    }
    let head = head(alloc, chain, loads)?;
    let mut bytes = Vec::new(alloc);
    push_block(&mut bytes, &head)?;
    push_forks(&mut bytes, stores)?;
    push_files(alloc, &mut bytes, chain.files())?;
    Ok(bytes)
}
