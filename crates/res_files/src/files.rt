//! The resource files of a run, and how they are on their stores.

ghost use Rattle.std.specs.Prelude.{◌≡◌, ℕ, ◌≤◌, length, true, IsTrue};
ghost use Rattle.res_table.specs.OpenFiles.{no_files, is_open};
ghost use Rattle.res_files.specs.Standing.{most_files};

use fork_bytes::place::Place;
use fork_disk::store::ForkStore;
use res_table::chain::Chain;
use std::alloc::Global;
use std::marker::Model;

/// There are at most this many resource files, open or not: their numbers are a `u8`, from 1 on.
pub const MOST_FILES: usize = 255;

/// The resource files of a run: a store for each, and the open ones. Contracts see the open files with the bytes that
/// their resources have on the disk, whether calls load what they get, and the stores.
pub struct ResourceFiles<S: ForkStore> {
    pub(crate) alloc: Global,
    pub(crate) chain: Chain<Place>,
    pub(crate) stores: Vec<S>,
    pub(crate) loads: bool,
}

impl<S: ForkStore> Model for ResourceFiles<S> {
    ghost use Rattle.std.specs.Prelude.{map};
    ghost use Rattle.res_files.specs.FilesOn.{FilesOn};

    ghost Value = { FilesOn S };

    ghost use Rattle.res_files.specs.Standing.{files_on, StandOn};

    ghost view = { λ r. record { files = files_on (map S.fork r.stores.items) r.chain; loads = r.loads; stores = r.stores.items } };

    ghost invariant = { λ r. StandOn S.fork S.is_ready S.is_honest r.stores.items r.chain };
}

impl<S: ForkStore> ResourceFiles<S> {
    /// The files of these stores, of which none is open: at most `MOST_FILES`. Calls load what they get.
    pub fn new(alloc: Global, stores: Vec<S>) -> ResourceFiles<S>
        requires { length stores.items ≤ most_files }
        ensures { result ≡ record { files = no_files; loads = true; stores = stores.items } }
    {
        ResourceFiles {
            alloc,
            chain: Chain::new(alloc),
            stores,
            loads: true,
        }
    }

    /// Hands out the stores. What isn't written stays unwritten.
    pub fn into_stores(self) -> Vec<S>
        ensures { result.items ≡ self.stores }
    {
        let ResourceFiles {
            alloc: _,
            chain,
            stores,
            loads: _,
        } = self;
        drop(chain);
        stores
    }

    /// How many files there are, open or not: at most `MOST_FILES`. The number of an open one is at most that.
    pub fn count(&self) -> usize
        ensures count { result ≡ length self.now.stores }
        ensures few { length self.now.stores ≤ most_files }
        ensures numbers { (k : ℕ) → IsTrue (is_open k self.now.files) → k ≤ length self.now.stores }
    {
        self.stores.len()
    }

    /// Whether calls load what they get.
    pub fn loads(&self) -> bool
        ensures { result ≡ self.now.loads }
    {
        self.loads
    }

    /// Says whether calls load what they get.
    pub fn set_loads(&mut self, loads: bool)
        ensures { self.new ≡ record self.old { loads = loads } }
    {
        self.loads = loads;
    }
}
