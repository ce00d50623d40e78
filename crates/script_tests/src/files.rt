//! The theorem of a run, read at files of the host.

ghost use Rattle.std.specs.Prelude.{◌≤◌, ℕ, List, length, unwrap_or};
ghost use Rattle.res_files.specs.Standing.{most_files};
ghost use Rattle.script_run.specs.Counting.{Gave, Took};
ghost use Rattle.script_run.specs.Exact.{RunsAgree};
ghost use Rattle.script_run.specs.Headline.{RunShows};
ghost use Rattle.script_run.specs.Line.{start_of};
ghost use Rattle.script_run.specs.Recovery.{RunRecovers};
ghost use Rattle.script_run.specs.Run.{Ends};
ghost use Rattle.script_run.specs.Seen.{KeepsSeen, StartsOn};
ghost use Rattle.script_run.specs.Turns.{Notes};
ghost use Rattle.script_tests.specs.Files.{file_store, journalled_store};
ghost use Rattle.script_tests.specs.Honest.{FilesCanBeHonest, PairsCanBeHonest, PairsCanBeLeft};

use fork_disk::store::PlainStore;
use fork_disk::{FileDisk, World};
use fork_journal::{FilePair, Journal, PairWorld};
use mac_base::zone_spec::ZoneSpec;
use script_run::{Counted, Moments, RunEnd, run};
use std::alloc::Global;
use std::io::{Read, Write};

/// Runs a script over forks that are files. What is promised of a run is said of them here by name: in each world their
/// bytes and their honesty are those of `file_store`, and nothing is left to a trait.
pub fn run_over_files<W: World, R: Read, T: Write>(
    alloc: Global,
    reader: &mut Counted<R>,
    writer: &mut Counted<T>,
    moments: &mut Moments<PlainStore<FileDisk<W>>>,
    spec: ZoneSpec,
    stores: Vec<PlainStore<FileDisk<W>>>,
) -> (RunEnd, Vec<PlainStore<FileDisk<W>>>)
    requires { length stores.items ≤ most_files }
    ensures ends { (given : List ℕ) × (written : List ℕ) × Gave R.remaining reader.old given reader.new × Took T.contents writer.old written writer.new
        × Notes writer.old.passed moments.old moments.new
        (λ noted. Ends (file_store W.World) (start_of spec stores.items) (unwrap_or (R.remaining reader.old.inner) given) result.0 written noted result.1.items) }
    ensures headline { RunShows (file_store W.World) }
    ensures recovers { RunRecovers (file_store W.World) }
    ensures kept { KeepsSeen (file_store W.World) (StartsOn (file_store W.World)) }
    ensures exact { RunsAgree (file_store W.World) }
{
    run(alloc, reader, writer, moments, spec, stores)
}

/// Runs a script over forks that are files, each with a journal in a file of its own: they are `journalled_store`.
pub fn run_over_journalled_files<W: PairWorld, R: Read, T: Write>(
    alloc: Global,
    reader: &mut Counted<R>,
    writer: &mut Counted<T>,
    moments: &mut Moments<Journal<FilePair<W>>>,
    spec: ZoneSpec,
    stores: Vec<Journal<FilePair<W>>>,
) -> (RunEnd, Vec<Journal<FilePair<W>>>)
    requires { length stores.items ≤ most_files }
    ensures ends { (given : List ℕ) × (written : List ℕ) × Gave R.remaining reader.old given reader.new × Took T.contents writer.old written writer.new
        × Notes writer.old.passed moments.old moments.new
        (λ noted. Ends (journalled_store W.PairWorld) (start_of spec stores.items) (unwrap_or (R.remaining reader.old.inner) given) result.0 written noted result.1.items) }
    ensures headline { RunShows (journalled_store W.PairWorld) }
    ensures recovers { RunRecovers (journalled_store W.PairWorld) }
    ensures kept { KeepsSeen (journalled_store W.PairWorld) (StartsOn (journalled_store W.PairWorld)) }
    ensures exact { RunsAgree (journalled_store W.PairWorld) }
{
    run(alloc, reader, writer, moments, spec, stores)
}

/// The premises of both can be met: files that do what they answer, and answer what they hold, are honest, and a run
/// starts on whatever a crash may leave of them. It computes nothing.
pub fn files_can_be_honest()
    ensures files { FilesCanBeHonest }
    ensures pairs { PairsCanBeHonest }
    ensures left { PairsCanBeLeft }
{}
