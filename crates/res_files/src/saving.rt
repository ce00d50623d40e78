//! What is saved of resource files, and how they are made of it again.

ghost use Rattle.std.specs.Prelude.{◌≡◌, map};
ghost use Rattle.res_files.specs.Standing.{StandOn, files_on};

use crate::files::ResourceFiles;
use fork_bytes::place::Place;
use fork_disk::store::ForkStore;
use res_table::chain::Chain;
use std::alloc::Global;

impl<S: ForkStore> ResourceFiles<S> {
    /// The open files, with where the bytes of their rows are.
    pub fn chain(&self) -> &Chain<Place>
        ensures files { self.now.files ≡ files_on (map S.fork self.now.stores) result.now }
        ensures stands { StandOn S.fork S.is_ready S.is_honest self.now.stores result.now }
    {
        &self.chain
    }

    /// The stores of all files, in the order of numbers.
    pub fn stores(&self) -> &[S]
        ensures { result.now ≡ self.now.stores }
    {
        &self.stores
    }

    /// The open files on these stores.
    pub fn restored(
        alloc: Global,
        chain: Chain<Place>,
        stores: Vec<S>,
        loads: bool,
    ) -> ResourceFiles<S>
        requires { StandOn S.fork S.is_ready S.is_honest stores.items chain }
        ensures { result ≡ record { files = files_on (map S.fork stores.items) chain; loads = loads; stores = stores.items } }
    {
        ResourceFiles {
            alloc,
            chain,
            stores,
            loads,
        }
    }
}
