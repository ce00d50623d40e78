//! What is asked of all open files together.

ghost use Rattle.std.specs.Prelude.{◌≡◌, length, IfSome, IsSome};
ghost use Rattle.res_table.specs.AllFiles.{all_rows, all_types, free_in_all, ith_place};
ghost use Rattle.res_table.specs.OpenFiles.{row_at};
ghost use Rattle.res_table.specs.Rows.{count_of_type, ith};

use crate::files::ResourceFiles;
use fork_disk::store::ForkStore;
use mac_base::resource::ResType;
use res_table::all_files;
use res_table::chain::RowPlace;

impl<S: ForkStore> ResourceFiles<S> {
    /// How many resources of a type all open files have.
    pub fn count_in_all(&self, kind: ResType) -> u32
        ensures { result ≡ count_of_type kind (all_rows self.now.files.files) }
    {
        all_files::count_of_type(self.chain.files(), kind) as u32
    }

    /// Where the resource of a type with this index, from 1 on, is in all open files: those of the latest file come
    /// first.
    pub fn find_ith_in_all(&self, kind: ResType, index: u32) -> Option<RowPlace>
        ensures value { result ≡ ith_place kind index self.now.files.files }
        ensures there { IfSome result (λ place. IsSome (row_at place self.now.files)) }
    {
        all_files::place_of_ith(self.chain.files(), kind, index as usize)
    }

    /// How many types all open files have: one that several have counts once.
    pub fn count_types_in_all(&self) -> u32
        ensures { result ≡ length (all_types self.now.files.files) }
    {
        all_files::count_types(self.chain.files()) as u32
    }

    /// The type with this index, from 1 on, in all open files.
    pub fn type_of_ith_in_all(&self, index: u32) -> Option<ResType>
        ensures { result ≡ ith index (all_types self.now.files.files) }
    {
        all_files::type_of_ith(self.chain.files(), index as usize)
    }

    /// The least id from 128 on that no resource of a type has in any open file, if one is left.
    pub fn free_id_in_all(&self, kind: ResType) -> Option<u16>
        ensures { result ≡ free_in_all kind self.now.files.files }
    {
        all_files::free_id(self.chain.files(), kind)
    }
}
