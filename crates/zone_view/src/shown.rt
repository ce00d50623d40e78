//! What is found of a zone, as lines of text or as JSON.

ghost use Rattle.std.specs.Prelude.{◌≡◌, IfSome, Some, length};
ghost use Rattle.std.specs.List.{flat_map};
ghost use Rattle.zone_view.specs.Shown.{address_text, block_line, block_object, blocks_of, bytes_of, closing_text, fault_line, fault_object, flags_text, handle_members, is_of, kind_text, kind_word, look_text, masters_line, opening_text, problem_text, row_text, rows_of, totals_line};
ghost use Rattle.zone_view.specs.Writing.{Writes};

use crate::writing::{NotWritten, write};
use mac_base::block::{Block, Flags, Kind};
use std::alloc::Global;
use std::fmt;
use std::io::Write;
use zone_look::{Fault, Found, Problem};

/// How many rows are made before they are written.
const ROWS: usize = 1024;

/// An address: a dollar sign, and eight hexadecimal digits.
#[derive(Clone, Copy)]
struct Address(u32);

impl fmt::Display for Address {
    ghost output = { λ a. Some (address_text a.0) };

    fn fmt<W: fmt::Write>(&self, f: &mut fmt::Formatter<W>) -> fmt::Result {
        let address = self.0;
        write!(f, "${address:08X}")
    }
}

/// A handle's flags as ZoneMap shows them.
fn letters_of(flags: Flags) -> &'static str
    ensures { result.now ≡ flags_text flags }
{
    match (flags.lock, flags.purge, flags.resource) {
        (false, false, false) => "---",
        (false, false, true) => "--R",
        (false, true, false) => "-P-",
        (false, true, true) => "-PR",
        (true, false, false) => "L--",
        (true, false, true) => "L-R",
        (true, true, false) => "LP-",
        (true, true, true) => "LPR",
    }
}

/// What a block is for, as its line shows it.
#[derive(Clone, Copy)]
struct KindText {
    kind: Kind,
    length: u32,
    flags: Flags,
}

impl fmt::Display for KindText {
    ghost output = { λ t. Some (kind_text t.kind t.length t.flags) };

    fn fmt<W: fmt::Write>(&self, f: &mut fmt::Formatter<W>) -> fmt::Result {
        let length = self.length;
        match self.kind {
            Kind::Free => write!(f, "free"),
            Kind::Master => write!(f, "master"),
            Kind::Ptr(_) => write!(f, "ptr {length}"),
            Kind::Rel(handle) => {
                let handle = Address(handle.number());
                let letters = letters_of(self.flags);
                write!(f, "rel {handle} {length} {letters}")
            }
        }
    }
}

/// A block in a line of its own, as ZoneMap shows it.
#[derive(Clone, Copy)]
struct BlockLine(Block);

impl fmt::Display for BlockLine {
    ghost output = { λ l. Some (block_line l.0) };

    fn fmt<W: fmt::Write>(&self, f: &mut fmt::Formatter<W>) -> fmt::Result {
        let block = self.0;
        let address = Address(block.address);
        let size = block.entry.size;
        let kind = KindText {
            kind: block.entry.kind,
            length: block.length,
            flags: block.flags,
        };
        write!(f, "{address} {size} {kind}\n")
    }
}

/// What a block is for, in a word.
fn word_of(kind: Kind) -> &'static str
    ensures { result.now ≡ kind_word kind }
{
    match kind {
        Kind::Free => "free",
        Kind::Master => "master",
        Kind::Ptr(_) => "ptr",
        Kind::Rel(_) => "rel",
    }
}

/// The members of JSON that a relocatable block alone has.
#[derive(Clone, Copy)]
struct HandleMembers {
    kind: Kind,
    flags: Flags,
}

impl fmt::Display for HandleMembers {
    ghost output = { λ m. Some (handle_members m.kind m.flags) };

    fn fmt<W: fmt::Write>(&self, f: &mut fmt::Formatter<W>) -> fmt::Result {
        let Flags {
            lock,
            purge,
            resource,
        } = self.flags;
        match self.kind {
            Kind::Free | Kind::Master | Kind::Ptr(_) => Ok(()),
            Kind::Rel(handle) => {
                let handle = handle.number();
                write!(
                    f,
                    ",\"handle\":{handle},\"lock\":{lock},\"purge\":{purge},\"resource\":{resource}"
                )
            }
        }
    }
}

/// A block as an object of JSON.
#[derive(Clone, Copy)]
struct BlockObject(Block);

impl fmt::Display for BlockObject {
    ghost output = { λ o. Some (block_object o.0) };

    fn fmt<W: fmt::Write>(&self, f: &mut fmt::Formatter<W>) -> fmt::Result {
        let Block {
            address,
            entry,
            length,
            flags,
        } = self.0;
        let size = entry.size;
        let word = word_of(entry.kind);
        let members = HandleMembers {
            kind: entry.kind,
            flags,
        };
        write!(
            f,
            "{{\"address\":{address},\"size\":{size},\"kind\":\"{word}\",\"length\":{length}{members}}}"
        )
    }
}

/// What is wrong, in words.
fn words_of(problem: Problem) -> &'static str
    ensures { result.now ≡ problem_text problem }
{
    match problem {
        Problem::ShortZone => "there are fewer bytes than the header of a zone has",
        Problem::LowLimit => "bkLim is before the first block",
        Problem::HighLimit => "bkLim is after the last byte of the file",
        Problem::CutHeader => "fewer bytes are left than the header of a block has",
        Problem::Overlaps => "a block is so small that it overlaps the next",
        Problem::LeavesZone => "a block leaves the zone",
        Problem::OddSize => "a block has an odd size",
        Problem::BadTag => "a block has no kind",
        Problem::BadZone => "a nonrelocatable block says that it is in another zone",
        Problem::BadHandle => "a block's master pointer isn't in the zone",
        Problem::BadMaster => "a master pointer doesn't lead to its block",
        Problem::BadFree => "a free master pointer isn't in the zone",
        Problem::EndlessFree => "the list of free master pointers has no end",
    }
}

/// What is wrong, in a line; nothing where nothing is.
#[derive(Clone, Copy)]
struct FaultLine(Option<Fault>);

impl fmt::Display for FaultLine {
    ghost output = { λ l. Some (fault_line l.0) };

    fn fmt<W: fmt::Write>(&self, f: &mut fmt::Formatter<W>) -> fmt::Result {
        let Some(fault) = self.0 else {
            return Ok(());
        };
        let number = fault.problem.number();
        let place = Address(fault.place);
        let words = words_of(fault.problem);
        let found = Address(fault.found);
        let wanted = Address(fault.wanted);
        write!(
            f,
            "fault {number} at {place}: {words}: {found}, and not {wanted}\n"
        )
    }
}

/// What is wrong, as an object of JSON.
#[derive(Clone, Copy)]
struct FaultObject(Option<Fault>);

impl fmt::Display for FaultObject {
    ghost output = { λ o. Some (fault_object o.0) };

    fn fmt<W: fmt::Write>(&self, f: &mut fmt::Formatter<W>) -> fmt::Result {
        let Some(fault) = self.0 else {
            return write!(f, "null");
        };
        let number = fault.problem.number();
        let Fault {
            problem: _,
            place,
            found,
            wanted,
        } = fault;
        write!(
            f,
            "{{\"problem\":{number},\"place\":{place},\"found\":{found},\"wanted\":{wanted}}}"
        )
    }
}

/// Blocks of which the number is shown. Those of the last two are relocatable.
#[derive(Clone, Copy)]
pub enum Class {
    Free,
    Fixed,
    Relocatable,
    Locked,
    Purgeable,
}

/// Whether a block is of a class.
fn is_of(class: Class, block: &Block) -> bool
    ensures { result ≡ is_of class block.now }
{
    let Flags { lock, purge, .. } = block.flags;
    match (class, block.entry.kind) {
        (Class::Free, Kind::Free)
        | (Class::Fixed, Kind::Master | Kind::Ptr(_))
        | (Class::Relocatable, Kind::Rel(_)) => true,
        (Class::Locked, Kind::Rel(_)) => lock,
        (Class::Purgeable, Kind::Rel(_)) => purge && !lock,
        _ => false,
    }
}

/// How many blocks there are of a class, and how many bytes they have.
#[derive(Clone, Copy)]
struct Share {
    count: u64,
    bytes: u64,
}

/// How many blocks are of a class, and how many bytes these have. (No zone has so many that a number is too large.)
fn share_of(blocks: &[Block], class: Class) -> Share
    ensures count { result.count ≡ length (blocks_of class blocks.now) }
    ensures bytes { result.bytes ≡ bytes_of (blocks_of class blocks.now) }
{
    let mut count: u64 = 0;
    let mut bytes: u64 = 0;
    for block in blocks {
        if is_of(class, block) {
            count += 1;
            bytes = bytes.saturating_add(u64::from(block.entry.size));
        }
    }
    Share { count, bytes }
}

impl fmt::Display for Share {
    ghost use Rattle.zone_view.specs.Shown.{share_text};

    ghost output = { λ s. Some (share_text s) };

    fn fmt<W: fmt::Write>(&self, f: &mut fmt::Formatter<W>) -> fmt::Result {
        let count = self.count;
        let bytes = self.bytes;
        write!(f, "{count} ({bytes} bytes)")
    }
}

/// The totals of all blocks, in a line.
#[derive(Clone, Copy)]
struct Totals<'a>(&'a [Block]);

impl fmt::Display for Totals<'_> {
    ghost output = { λ t. Some (totals_line t.0.now) };

    fn fmt<W: fmt::Write>(&self, f: &mut fmt::Formatter<W>) -> fmt::Result {
        let free = share_of(self.0, Class::Free);
        let fixed = share_of(self.0, Class::Fixed);
        let relocatable = share_of(self.0, Class::Relocatable);
        let locked = share_of(self.0, Class::Locked);
        let purgeable = share_of(self.0, Class::Purgeable);
        write!(
            f,
            "free {free}, nonrelocatable {fixed}, relocatable {relocatable}: locked {locked}, purgeable {purgeable}\n"
        )
    }
}

/// The number of free master pointers and the trailer's size, in a line.
#[derive(Clone, Copy)]
struct Masters(Found);

impl fmt::Display for Masters {
    ghost output = { λ m. Some (masters_line m.0) };

    fn fmt<W: fmt::Write>(&self, f: &mut fmt::Formatter<W>) -> fmt::Result {
        let count = self.0.free_masters;
        let trailer = self.0.trailer;
        write!(
            f,
            "{count} free master pointers, trailer of {trailer} bytes\n"
        )
    }
}

/// What is shown after the rows: what is found beside the blocks.
#[derive(Clone, Copy)]
struct Closing<'a> {
    is_json: bool,
    blocks: &'a [Block],
    found: Found,
}

impl fmt::Display for Closing<'_> {
    ghost output = { λ c. Some (closing_text c.is_json c.blocks.now c.found) };

    fn fmt<W: fmt::Write>(&self, f: &mut fmt::Formatter<W>) -> fmt::Result {
        if self.is_json {
            let count = self.found.free_masters;
            let trailer = self.found.trailer;
            let fault = FaultObject(self.found.fault);
            write!(
                f,
                "],\n\"free_masters\":{count},\"trailer\":{trailer},\n\"fault\":{fault}}}\n"
            )
        } else {
            let totals = Totals(self.blocks);
            let masters = Masters(self.found);
            let fault = FaultLine(self.found.fault);
            write!(f, "{totals}{masters}{fault}")
        }
    }
}

/// What is shown before the rows: of JSON the name of the list, and the first block.
#[derive(Clone, Copy)]
struct Opening<'a> {
    is_json: bool,
    blocks: &'a [Block],
}

impl fmt::Display for Opening<'_> {
    ghost output = { λ o. Some (opening_text o.is_json o.blocks.now) };

    fn fmt<W: fmt::Write>(&self, f: &mut fmt::Formatter<W>) -> fmt::Result {
        match (self.is_json, self.blocks) {
            (false, _) => Ok(()),
            (true, []) => write!(f, "{{\"blocks\":["),
            (true, [first, ..]) => {
                let first = BlockObject(*first);
                write!(f, "{{\"blocks\":[\n{first}")
            }
        }
    }
}

/// A row of a block: a line, or an object of JSON in a line after a comma.
#[derive(Clone, Copy)]
struct Row {
    is_json: bool,
    block: Block,
}

impl fmt::Display for Row {
    ghost output = { λ r. Some (row_text r.is_json r.block) };

    fn fmt<W: fmt::Write>(&self, f: &mut fmt::Formatter<W>) -> fmt::Result {
        if self.is_json {
            let object = BlockObject(self.block);
            write!(f, ",\n{object}")
        } else {
            let line = BlockLine(self.block);
            write!(f, "{line}")
        }
    }
}

/// A row of each block.
#[derive(Clone, Copy)]
struct Rows<'a> {
    is_json: bool,
    blocks: &'a [Block],
}

impl fmt::Display for Rows<'_> {
    ghost output = { λ r. Some (flat_map (row_text r.is_json) r.blocks.now) };

    fn fmt<W: fmt::Write>(&self, f: &mut fmt::Formatter<W>) -> fmt::Result {
        for block in self.blocks {
            let row = Row {
                is_json: self.is_json,
                block: *block,
            };
            write!(f, "{row}")?;
        }
        Ok(())
    }
}

/// Writes what a value shows.
fn write_shown<D: fmt::Display, W: Write>(
    alloc: Global,
    value: &D,
    output: &mut W,
) -> Result<(), NotWritten>
    ensures { IfSome (D.output value.now) (λ text. Writes text (W.contents output.old) (W.contents output.new) result) }
{
    let text = format!(in alloc; "{value}")?;
    write(text.as_bytes(), output)
}

/// Writes a row of each block.
fn write_rows<W: Write>(
    alloc: Global,
    is_json: bool,
    blocks: &[Block],
    output: &mut W,
) -> Result<(), NotWritten>
    ensures { Writes (flat_map (row_text is_json) blocks.now) (W.contents output.old) (W.contents output.new) result }
{
    let mut rest = blocks;
    while !rest.is_empty() {
        let (chunk, later) = rest.split_at(rest.len().min(ROWS));
        let rows = Rows {
            is_json,
            blocks: chunk,
        };
        write_shown(alloc, &rows, output)?;
        rest = later;
    }
    Ok(())
}

/// The blocks of which a row is written: of JSON those after the first.
fn rows_of(is_json: bool, blocks: &[Block]) -> &[Block]
    ensures { result.now ≡ rows_of is_json blocks.now }
{
    match (is_json, blocks) {
        (true, [_, later @ ..]) => later,
        _ => blocks,
    }
}

/// Writes what is found, as lines or as JSON.
pub(crate) fn write_look<W: Write>(
    alloc: Global,
    is_json: bool,
    blocks: &[Block],
    found: Found,
    output: &mut W,
) -> Result<(), NotWritten>
    ensures { Writes (look_text is_json blocks.now found) (W.contents output.old) (W.contents output.new) result }
{
    let opening = Opening { is_json, blocks };
    write_shown(alloc, &opening, output)?;
    write_rows(alloc, is_json, rows_of(is_json, blocks), output)?;
    let closing = Closing {
        is_json,
        blocks,
        found,
    };
    write_shown(alloc, &closing, output)
}
