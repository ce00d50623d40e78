//! A folder that is written to, and one in it.

ghost use Rattle.std.specs.Prelude.{◌≡◌, [], true, Some, IfOk, OnOk};
ghost use Rattle.new_folder.specs.Begun.{Begins};
ghost use Rattle.new_folder.specs.Checked.{IsBegun, OpensMade, path_in};
ghost use Rattle.new_folder.specs.NewFolder.{Makes, is_single, path_below, with_file, with_folder};

use crate::calls::{FolderCall, FolderCalls, FolderNoted, note};
use crate::opened::{NoNewFolder, Opened, check, made_or_there};
use host_paths::{HostCalls, Longest, this_user};
use std::io;

/// A folder that is written to. It is open: what is made in it is there, whatever its path leads to meanwhile. Each call
/// of the system is noted with its answer, in a record that only clauses read.
#[derive(Drop)]
pub struct NewFolder<'a> {
    opened: Opened<'a>,
    owner: u32,
}

/// A folder in it that was made by this run.
#[derive(Drop)]
pub struct InnerFolder<'a> {
    opened: Opened<'a>,
    pub name: &'a str,
}

impl<'a> NewFolder<'a> {
    /// Makes the folder of a path, or opens one that is there, is empty, and isn't another user's in which others than
    /// its owner may write.
    fn begun(rt: &'a HostRuntime, path: &str) -> Result<NewFolder<'a>, NoNewFolder>
        ensures { IfOk result (λ it. IsBegun path.now it.owner it.opened.folder it.opened.asked.events) }
    {
        let mut asked = HostCalls::new();
        let owner = this_user(rt, &mut asked).map_err(NoNewFolder::NoProc)?;
        let folder = made_or_there(rt, path, owner, &mut asked)?;
        check(rt, &folder, owner, &mut asked)?;
        let opened = Opened {
            rt,
            folder,
            longest: Longest::of_process(rt),
            asked,
        };
        Ok(NewFolder { opened, owner })
    }

    /// The same, and notes whether it did.
    pub fn begin(
        rt: &'a HostRuntime,
        path: &str,
        log: &mut FolderCalls,
    ) -> Result<NewFolder<'a>, NoNewFolder>
        ensures { Begins path.now result log.old.events log.new.events }
    {
        let begun = NewFolder::begun(rt, path);
        let call = FolderCall::Begin;
        let is_done = begun.is_ok();
        note(log, FolderNoted { call, is_done }, path.as_bytes());
        begun
    }

    /// Makes a folder of this name, and opens it. One that is there is refused, and so is what was put in its place
    /// before it was open.
    pub fn make_folder(&self, name: &'a str, log: &mut FolderCalls) -> io::Result<InnerFolder<'a>>
        ensures made { Makes result (with_folder name.now log.old.events) log.old.events log.new.events }
        ensures single { OnOk result (is_single name.now ≡ true) }
        ensures name { IfOk result (λ inner. inner.name.now ≡ name.now) }
        ensures opens { IfOk result (λ inner. OpensMade (path_in self.now.opened.folder name.now) self.now.owner inner.opened.folder [] inner.opened.asked.events) }
    {
        self.opened.create_folder(name, log)?;
        let opened = self.opened.open_inner(name, self.owner, log)?;
        Ok(InnerFolder { opened, name })
    }

    /// Makes a file of this name and these bytes. One that is there is refused.
    pub fn write_file(&self, name: &str, bytes: &[u8], log: &mut FolderCalls) -> io::Result<()>
        ensures made { Makes result (with_file name.now bytes.now log.old.events) log.old.events log.new.events }
        ensures single { OnOk result (is_single name.now ≡ true) }
    {
        self.opened.write_file(None, name, bytes, log)
    }
}

impl InnerFolder<'_> {
    /// Makes a file of this name and these bytes. One that is there is refused.
    pub fn write_file(&self, name: &str, bytes: &[u8], log: &mut FolderCalls) -> io::Result<()>
        ensures made { Makes result (with_file (path_below (Some self.now.name.now) name.now) bytes.now log.old.events) log.old.events log.new.events }
        ensures single { OnOk result (is_single name.now ≡ true) }
    {
        self.opened.write_file(Some(self.name), name, bytes, log)
    }
}
