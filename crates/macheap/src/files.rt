//! The files that a run is over.

ghost use Rattle.std.specs.Prelude.{◌≡◌, ◌≤◌, length, IfOk, IfErr};
ghost use Rattle.macheap.specs.Files.{FitForks, NotNamed};
ghost use Rattle.run_stores.specs.Stores.{most_files};

use crate::asked::NotAsked;
use std::alloc::Global;

/// A run is over this many files at most.
const MOST_FILES: usize = 8;

/// The names of the files that a run is over.
#[derive(Drop)]
pub struct Files<'a> {
    /// Where the forks are: none, for one in memory, or up to `MOST_FILES`.
    forks: Vec<&'a str>,
    /// Where their journals are: none, or one for each fork.
    journals: Vec<&'a str>,
    ghost few: { length forks.items ≤ most_files },
    ghost fit: { FitForks journals.items forks.items },
}

impl<'a> Files<'a> {
    /// The files of these names.
    pub fn named(
        alloc: Global,
        forks: &[&'a str],
        journals: &[&'a str],
    ) -> Result<Files<'a>, NotAsked>
        ensures forks { IfOk result (λ files. files.forks.items ≡ forks.now) }
        ensures journals { IfOk result (λ files. files.journals.items ≡ journals.now) }
        ensures fault { IfErr result (NotNamed forks.now journals.now) }
    {
        if forks.len() > MOST_FILES {
            return Err(NotAsked::TooManyForks);
        }
        if !journals.is_empty() && journals.len() != forks.len() {
            return Err(NotAsked::OtherJournals);
        }
        Ok(Files {
            forks: Vec::from_slice(alloc, forks)?,
            journals: Vec::from_slice(alloc, journals)?,
        })
    }

    /// The names of the forks' files.
    pub fn forks(&self) -> &[&'a str]
        ensures names { result.now ≡ self.now.forks.items }
        ensures few { length result.now ≤ most_files }
    {
        &self.forks
    }

    /// The names of their journals' files, as many as forks or none.
    pub fn journals(&self) -> &[&'a str]
        ensures names { result.now ≡ self.now.journals.items }
        ensures fit { FitForks result.now self.now.forks.items }
    {
        &self.journals
    }
}
