//! Where a command is asked to write something new.

ghost use Rattle.std.specs.Prelude.{◌≡◌};
ghost use Rattle.fork_words.specs.Outputs.{data_output, new_output, place_output, salvage_output, work_output};

use crate::asked::{Asked, Salvage};
use crate::work::{Place, Work};

/// Where a salvage goes.
fn salvage_output<'a>(what: Salvage<'a>) -> Option<&'a str>
    ensures { result ≡ salvage_output what.entry }
{
    match what {
        Salvage::List(_) => None,
        Salvage::Fork(path) | Salvage::Data(path) => Some(path),
    }
}

/// Where resources of a text or a folder go, unless it is into a file that is there.
fn place_output<'a>(place: Place<'a>) -> Option<&'a str>
    ensures { result ≡ place_output place.entry }
{
    match place {
        Place::New { target, .. } | Place::Into { target, .. } => target.output,
    }
}

/// Where a command that changes a file writes the new one, if not in its place.
fn work_output<'a>(work: &Work<'a>) -> Option<&'a str>
    ensures { result ≡ work_output work.now }
{
    match work {
        Work::Put(asked) => asked.target.output,
        Work::Remove(asked) => asked.target.output,
        Work::Set(asked) => asked.target.output,
        Work::Copy(asked) => asked.target.output,
        Work::Convert(asked) => asked.target.output,
        Work::PutTexts(asked) => asked.target.output,
        Work::Rez(asked) => place_output(asked.place),
        Work::Pack(asked) => place_output(asked.place),
        Work::Compare(_) | Work::Derez(_) | Work::Texts(_) => None,
    }
}

impl<'a> Asked<'a> {
    /// The new file or folder that is named to be written.
    pub fn new_output(&self) -> Option<&'a str>
        ensures { result ≡ new_output self.now }
    {
        match self {
            Asked::Show(asked) => asked.output,
            Asked::View(asked) => asked.output,
            Asked::Page(asked) => asked.output,
            Asked::Salvage(asked) => salvage_output(asked.what),
            Asked::Unpack { unpacking, .. } => Some(unpacking.folder),
            Asked::Change(work) => work_output(work),
            Asked::Report(_) | Asked::Find(_) | Asked::Tell(_) => None,
        }
    }

    /// The file of a data fork that is named, which a conversion may write beside the new one.
    pub fn data_output(&self) -> Option<&'a str>
        ensures { result ≡ data_output self.now }
    {
        match self {
            Asked::Change(Work::Convert(asked)) => asked.data,
            _ => None,
        }
    }
}
