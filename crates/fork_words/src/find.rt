//! The words of the command that finds resources.

ghost use Rattle.std.specs.Prelude.{codes, IfErr, IfOk};
ghost use Rattle.clap.specs.Matches.{first_value, found_of};
ghost use Rattle.fork_words.specs.Asked.{Asks};
ghost use Rattle.fork_words.specs.Asks.{IsFault, IsFit};
ghost use Rattle.fork_words.specs.Finding.{IsIdGiven};

use crate::asked::{Asked, NotAsked, files_named, kinds_named};
use crate::fault::Fault;
use crate::work::{id_named, name_given};
use clap::ArgMatches;
use fork_find::Sought;
use std::alloc::Global;

/// Resources that are sought in files, and in the files below folders.
#[derive(Drop)]
pub struct Finding<'a> {
    pub sought: Sought,
    pub files: Vec<&'a str>,
}

/// The id that is sought, where one is given.
fn id_given(matches: &ArgMatches<'_>) -> Result<Option<i16>, Fault>
    ensures { IfOk result (IsIdGiven (first_value (found_of matches.now) (codes "id"))) }
{
    match matches.get_str("id") {
        Some(word) => Ok(Some(id_named(word)?)),
        None => Ok(None),
    }
}

/// What `find` asks for.
pub(crate) fn asked_to_find<'a>(
    alloc: Global,
    matches: &ArgMatches<'a>,
) -> Result<Asked<'a>, NotAsked>
    ensures asked { IfOk result (Asks (codes "find") (found_of matches.now)) }
    ensures fit { IfOk result IsFit }
    ensures fault { IfErr result IsFault }
{
    let sought = Sought {
        kinds: kinds_named(alloc, matches)?,
        id: id_given(matches)?,
        name: name_given(alloc, matches, "name")?,
        bytes: name_given(alloc, matches, "text")?,
    };
    let files = files_named(alloc, matches)?;
    Ok(Asked::Find(Finding { sought, files }))
}
