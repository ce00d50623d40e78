//! The store of a resource file is read, or replaced.

ghost use Rattle.std.specs.Prelude.{◌≡◌, ◌-◌, ◌≤◌, length, set, slice_get, Some, IsFalse};
ghost use Rattle.res_table.specs.OpenFiles.{is_open};

use crate::files::ResourceFiles;
use fork_disk::store::ForkStore;
use std::mem;

impl<S: ForkStore> ResourceFiles<S> {
    /// The store of the file of a number, open or not.
    pub fn store(&self, number: u8) -> &S
        requires there { (1 ≤ number) × (number ≤ length self.now.stores) }
        ensures { slice_get self.now.stores (number - 1) ≡ Some result.now }
    {
        &self.stores[number as usize - 1]
    }

    /// Puts another store in the place of that of the file of a number, which isn't open, and hands out the one that
    /// was there.
    pub fn replace_store(&mut self, number: u8, store: S) -> S
        requires there { (1 ≤ number) × (number ≤ length self.old.stores) }
        requires closed { IsFalse (is_open number self.old.files) }
        ensures replaced { self.new ≡ record self.old { stores = set self.old.stores (number - 1) store } }
        ensures was { slice_get self.old.stores (number - 1) ≡ Some result }
    {
        mem::replace(&mut self.stores[number as usize - 1], store)
    }
}
