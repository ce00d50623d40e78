//! What is written is outside of disk images, which are only read.

ghost use Rattle.std.specs.Prelude.{◌≡◌, is_none, true};
ghost use Rattle.file_acts.specs.Acts.{WritesNothing};
ghost use Rattle.file_acts.specs.Saved.{ShowsSaved};
ghost use Rattle.fork_shows.specs.Outputs.{NamesNone};

use crate::failed::{Failed, of_file};
use file_acts::acts::Acts;
use file_acts::host::Host;
use file_acts::message::Problem;
use fork_disk::Unknown;
use fork_words::asked::Asked;
use image_acts::check_outside;

/// Refuses a path in a disk image, also in one that isn't read: `Problem::IntoImage`.
#[tactic(auto, using(crate::proofs::Quiet::writes_nothing))]
fn check_path(host: &Host<'_>, path: &str, acts: &mut Acts) -> Result<(), Problem>
    ensures quiet { WritesNothing acts.old.events acts.new.events }
    ensures seen { ShowsSaved acts.old.events acts.new.events }
{
    match check_outside::<Unknown>(host, path, acts) {
        Ok(()) => Ok(()),
        Err(Problem::InImage | Problem::Image(_)) => Err(Problem::IntoImage),
        Err(why) => Err(why),
    }
}

/// The same of a path that may be named.
fn check_output<'a>(
    host: &Host<'_>,
    output: Option<&'a str>,
    acts: &mut Acts,
) -> Result<(), Failed<'a>>
    ensures none { is_none output.entry ≡ true → acts.new.events ≡ acts.old.events }
    ensures quiet { WritesNothing acts.old.events acts.new.events }
    ensures seen { ShowsSaved acts.old.events acts.new.events }
{
    match output {
        Some(path) => of_file(path, check_path(host, path, acts)),
        None => Ok(()),
    }
}

/// Refuses a command that is asked to write something new in a disk image: which path is in the way, with
/// `Problem::IntoImage`, or why it isn't known whether it is in one.
pub fn check_outputs<'a>(
    host: &Host<'_>,
    asked: &Asked<'a>,
    acts: &mut Acts,
) -> Result<(), Failed<'a>>
    ensures none { NamesNone asked.now → acts.new.events ≡ acts.old.events }
    ensures quiet { WritesNothing acts.old.events acts.new.events }
    ensures seen { ShowsSaved acts.old.events acts.new.events }
{
    check_output(host, asked.new_output(), acts)?;
    check_output(host, asked.data_output(), acts)
}
