//! What can be read of a fork as text.

ghost use Rattle.std.specs.Prelude.{◌≡◌, Some, IfOk, string_bytes};
ghost use Rattle.fork_answer.specs.Lines.{place_text, gap_text, loss_text, id_text, name_line, item_line, salvage_listing};

use fork_list::letters::Letters;
use fork_list::{KindText, RowText, unpacked_length};
use fork_salvage::{FoundName, Gap, Item, Loss, Salvage, Span};
use std::alloc::{AllocError, Global};
use std::fmt;

/// A place in a fork: a dollar sign, and six hexadecimal digits or more.
#[derive(Clone, Copy)]
pub(crate) struct Place(pub(crate) usize);

impl fmt::Display for Place {
    ghost output = { λ p. Some (place_text p.0) };

    fn fmt<W: fmt::Write>(&self, f: &mut fmt::Formatter<W>) -> fmt::Result {
        let place = self.0;
        write!(f, "${place:06X}")
    }
}

/// What is missing: how many bytes, where they should be, and how many are left there.
#[derive(Clone, Copy)]
struct GapText(Gap);

impl fmt::Display for GapText {
    ghost output = { λ g. Some (gap_text g.0) };

    fn fmt<W: fmt::Write>(&self, f: &mut fmt::Formatter<W>) -> fmt::Result {
        let place = Place(self.0.place);
        let wanted = self.0.wanted;
        let left = self.0.left;
        write!(f, "{wanted} bytes at {place}, where {left} are left")
    }
}

/// Why a resource can't be read.
#[derive(Clone, Copy)]
struct LossText(Loss);

impl fmt::Display for LossText {
    ghost output = { λ l. Some (loss_text l.0) };

    fn fmt<W: fmt::Write>(&self, f: &mut fmt::Formatter<W>) -> fmt::Result {
        match self.0 {
            Loss::Reference(gap) => write!(f, "its reference has {gap}", gap = GapText(gap)),
            Loss::Length(gap) => write!(f, "its length has {gap}", gap = GapText(gap)),
            Loss::Bytes(gap) => write!(f, "it has {gap}", gap = GapText(gap)),
        }
    }
}

/// An id to the right of its column, or a question mark.
#[derive(Clone, Copy)]
struct IdText(Option<i16>);

impl fmt::Display for IdText {
    ghost output = { λ i. Some (id_text i.0) };

    fn fmt<W: fmt::Write>(&self, f: &mut fmt::Formatter<W>) -> fmt::Result {
        match self.0 {
            Some(id) => write!(f, "{id:>6}"),
            None => write!(f, "     ?"),
        }
    }
}

/// A line about a name that ends outside of the map; nothing about others.
#[derive(Clone, Copy)]
struct NameLine(FoundName);

impl fmt::Display for NameLine {
    ghost output = { λ n. Some (name_line n.0) };

    fn fmt<W: fmt::Write>(&self, f: &mut fmt::Formatter<W>) -> fmt::Result {
        let FoundName::Outside(place) = self.0 else {
            return Ok(());
        };
        writeln!(
            f,
            "  its name, at {place}, ends outside of the map",
            place = Place(place)
        )
    }
}

/// The line of an item: as a list shows it, or what of it can't be read, or that there are more, or a run of bytes
/// without type and id.
#[derive(Clone, Copy)]
struct ItemLine<'a> {
    letters: Letters,
    fork: &'a [u8],
    item: Item,
}

impl fmt::Display for ItemLine<'_> {
    ghost output = { λ l. Some (item_line l.letters l.fork.now l.item) };

    fn fmt<W: fmt::Write>(&self, f: &mut fmt::Formatter<W>) -> fmt::Result {
        match self.item {
            Item::Row(found) => {
                let row = RowText {
                    letters: self.letters,
                    kind: found.kind,
                    id: found.id,
                    count: found.bytes.length,
                    attributes: found.attributes,
                    name: found.name.of(self.fork),
                    unpacked: unpacked_length(found.attributes, found.bytes.of(self.fork)),
                };
                let name = NameLine(found.name);
                write!(f, "{row}\n{name}")
            }
            Item::Lost(lost) => {
                let kind = KindText::new(self.letters, lost.kind);
                let id = IdText(lost.id);
                let loss = LossText(lost.loss);
                let reference = Place(lost.reference);
                writeln!(
                    f,
                    "{kind} {id}        ? can't be read: {loss}; its reference is at {reference}"
                )
            }
            Item::More => {
                writeln!(
                    f,
                    "-         -        ? more can't be read: the map has no room for so many"
                )
            }
            Item::Run(Span { start, length }) => {
                writeln!(
                    f,
                    "-         - {length:>8} at {place}",
                    place = Place(start)
                )
            }
        }
    }
}

/// A line for each resource of a fork, in the order of its map: as a list shows it, or what of it can't be read; and
/// one where there are more than the map has room for. Where no type is found in a damaged fork, the runs of bytes in
/// its data. There are so many lines at most.
pub fn salvage_listing(
    alloc: Global,
    letters: Letters,
    fork: &[u8],
    most: usize,
) -> Result<String, AllocError>
    ensures { IfOk result (λ text. string_bytes text ≡ salvage_listing letters fork.now most) }
{
    let mut text = String::new(alloc);
    let mut salvage = Salvage::new(fork);
    for _turn in 0..most {
        let Some(item) = salvage.next() else {
            return Ok(text);
        };
        let line = ItemLine {
            letters,
            fork,
            item,
        };
        write!(text, "{line}")?;
    }
    Ok(text)
}
