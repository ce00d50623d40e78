//! The first fault of a fork that isn't read, with its place.

ghost use Rattle.std.specs.Prelude.{◌≡◌};
ghost use Rattle.fork_salvage.specs.Fault.{refusal_of};

use crate::place::Gap;
use fork_bytes::fault::{Condition, ForkFault};
use fork_list::Quoted;
use fork_list::letters::Letters;
use mac_base::resource::ResType;
use std::fmt;

/// A type that is twice in the type list, and where in the fork its two entries are.
#[derive(Clone, Copy, Debug, PartialEq, Eq)]
pub struct SameType {
    pub kind: ResType,
    pub first: usize,
    pub second: usize,
}

/// A list of references that ends outside of the map.
#[derive(Clone, Copy, Debug, PartialEq, Eq)]
pub struct BadList {
    pub kind: ResType,
    pub gap: Gap,
}

/// More references than are read of a map: how many there are, how many bytes the map has, and how many references of
/// such a map are read at most. That is one for each 12 bytes, and 4,194,304 of a longer map.
#[derive(Clone, Copy, Debug, PartialEq, Eq)]
pub struct Excess {
    pub count: usize,
    pub map_length: usize,
    pub most: usize,
}

/// A resource of which something ends outside: its type and id, where its reference is in the fork, and what is
/// missing.
#[derive(Clone, Copy, Debug, PartialEq, Eq)]
pub struct BadRow {
    pub kind: ResType,
    pub id: i16,
    pub reference: usize,
    pub gap: Gap,
}

/// Why a fork isn't read: what doesn't hold first, at the least place where it doesn't.
#[derive(Clone, Copy, Debug, PartialEq, Eq)]
pub enum Fault {
    /// The fork ends within its header.
    Header(Gap),
    /// There are more bytes than four bytes can say: so many.
    TooLong(usize),
    /// The data ends outside of the fork.
    Data(Gap),
    /// The map ends outside of the fork.
    Map(Gap),
    /// The map is shorter than its own header.
    MapHeader(Gap),
    /// The count of types is outside of the map.
    TypeCount(Gap),
    /// The entries of the type list end outside of the map.
    TypeList(Gap),
    /// A type is there twice.
    SameType(SameType),
    /// The references of a type end outside of the map.
    References(BadList),
    /// There are more references than the map has room for.
    RowCount(Excess),
    /// A name ends outside of the map. The place is that of its byte of length.
    Name(BadRow),
    /// The four bytes of a resource's length end outside of the data.
    Length(BadRow),
    /// The bytes of a resource end outside of the data. The place is that of their length.
    Bytes(BadRow),
    /// The resources as far as this one have more bytes together than are read of such data: so many are wanted.
    ByteCount(BadRow),
}

impl Fault {
    /// What `fork_bytes::read_fork_within` says of it.
    pub fn refusal(&self) -> ForkFault
        ensures { result ≡ refusal_of self.now }
    {
        let condition = match self {
            Fault::Header(_) => return ForkFault::EndOfFile,
            Fault::TooLong(_) | Fault::Data(_) | Fault::Map(_) | Fault::MapHeader(_) => {
                Condition::Parts
            }
            Fault::TypeCount(_) | Fault::TypeList(_) | Fault::SameType(_) => Condition::Types,
            Fault::References(_) => Condition::References,
            Fault::RowCount(_) => Condition::RowCount,
            Fault::Name(_) => Condition::Names,
            Fault::Length(_) | Fault::Bytes(_) => Condition::Places,
            Fault::ByteCount(_) => Condition::ByteCount,
        };
        ForkFault::BadMap(condition)
    }
}

/// What is said of a part of a fork: what it is, how many bytes it should have, how many are left, and of what.
fn write_part<W: fmt::Write>(
    f: &mut fmt::Formatter<W>,
    part: &str,
    gap: &Gap,
    whole: &str,
) -> fmt::Result {
    let Gap {
        place,
        wanted,
        left,
    } = *gap;
    write!(
        f,
        "{part} has {wanted} bytes, and {left} bytes are left in the {whole}\n  at ${place:06X}"
    )
}

/// What is said of a resource: what of it is too long, how many bytes that should be, and how many there can be, between
/// the words before that number and those after it.
fn write_row<W: fmt::Write>(
    f: &mut fmt::Formatter<W>,
    row: &BadRow,
    part: &str,
    before: &str,
    after: &str,
) -> fmt::Result {
    let kind = row.kind.bytes();
    let kind = Quoted::single(Letters::Raw, &kind);
    let BadRow {
        id,
        reference,
        gap,
        ..
    } = *row;
    let Gap {
        place,
        wanted,
        left,
    } = gap;
    write!(
        f,
        "{kind} {id}: {part} {wanted}, and {before}{left} {after}\n  at ${place:06X}, reached from the reference at ${reference:06X}"
    )
}

impl fmt::Display for Fault {
    fn fmt<W: fmt::Write>(&self, f: &mut fmt::Formatter<W>) -> fmt::Result {
        match self {
            Fault::Header(gap) => write_part(f, "the header", gap, "fork"),
            Fault::TooLong(count) => {
                write!(
                    f,
                    "the fork has {count} bytes, and at most 4294967295 are read"
                )
            }
            Fault::Data(gap) => write_part(f, "the data", gap, "fork"),
            Fault::Map(gap) => write_part(f, "the map", gap, "fork"),
            Fault::MapHeader(gap) => write_part(f, "the header of the map", gap, "map"),
            Fault::TypeCount(gap) => write_part(f, "the count of types", gap, "map"),
            Fault::TypeList(gap) => write_part(f, "the type list", gap, "map"),
            Fault::SameType(same) => write_same(f, same),
            Fault::References(list) => write_list(f, list),
            Fault::RowCount(excess) => write_excess(f, excess),
            Fault::Name(row) => {
                let part = "its name with its byte of length has";
                write_row(f, row, part, "", "bytes are left in the map")
            }
            Fault::Length(row) => {
                let part = "the bytes of its length are";
                write_row(f, row, part, "", "bytes are left in the data")
            }
            Fault::Bytes(row) => {
                write_row(f, row, "its length is", "", "bytes are left in the data")
            }
            Fault::ByteCount(row) => {
                let part = "the bytes of the resources up to it are";
                write_row(f, row, part, "at most ", "are read of such data")
            }
        }
    }
}

/// What is said of a type that is twice.
fn write_same<W: fmt::Write>(f: &mut fmt::Formatter<W>, same: &SameType) -> fmt::Result {
    let kind = same.kind.bytes();
    let kind = Quoted::single(Letters::Raw, &kind);
    let SameType { first, second, .. } = *same;
    write!(
        f,
        "{kind} is twice in the type list\n  at ${second:06X}, first at ${first:06X}"
    )
}

/// What is said of too many references.
fn write_excess<W: fmt::Write>(f: &mut fmt::Formatter<W>, excess: &Excess) -> fmt::Result {
    let Excess {
        count,
        map_length,
        most,
    } = *excess;
    write!(
        f,
        "there are {count} resources in a map of {map_length} bytes, and at most {most} are read"
    )
}

/// What is said of a list of references.
fn write_list<W: fmt::Write>(f: &mut fmt::Formatter<W>, list: &BadList) -> fmt::Result {
    let kind = list.kind.bytes();
    let kind = Quoted::single(Letters::Raw, &kind);
    let Gap {
        place,
        wanted,
        left,
    } = list.gap;
    write!(
        f,
        "{kind}: the list of its references has {wanted} bytes, and {left} bytes are left in the map\n  at ${place:06X}"
    )
}
