//! Another id and another name for a resource.

ghost use Rattle.std.specs.Prelude.{◌≡◌, IsSome, OnOk, OnErr};
ghost use Rattle.res_table.specs.Info.{with_info};
ghost use Rattle.res_table.specs.OpenFiles.{row_at};
ghost use Rattle.res_update.specs.Changes.{row_changed};

use crate::files::ResourceFiles;
use fork_disk::store::ForkStore;
use mac_base::error::HostFull;
use mac_base::name::Name;
use res_table::chain::RowPlace;

impl<S: ForkStore> ResourceFiles<S> {
    /// Gives the row at a place this id, and this name where one is given. Without host memory nothing is changed.
    pub fn set_info(&mut self, place: RowPlace, id: i16, name: Option<Name>) -> Result<(), HostFull>
        requires { IsSome (row_at place self.old.files) }
        ensures set { OnOk result (self.new ≡ record self.old { files = row_changed place (with_info id name) self.old.files }) }
        ensures same { OnErr result (self.new ≡ self.old) }
    {
        self.chain.set_info(place, id, name)
    }
}
