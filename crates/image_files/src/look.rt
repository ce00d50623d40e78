//! What a volume says of itself, and of its folders and files.

ghost use Rattle.std.specs.Prelude.{◌≡◌, option_map};
ghost use Rattle.image_files.specs.Looks.{count_of, name_bytes, thing_info, volume_name};

use crate::files::Files;
use crate::item::{Info, entry_info, file_info};
use crate::volume::VolumeFiles;
use hfs_volume::name::Name;

impl VolumeFiles {
    /// The name of the volume.
    pub fn name(&self) -> Name
        ensures { result ≡ volume_name self.now.files }
    {
        match &self.files {
            Files::Hfs(volume, _) => volume.mdb.volume_name(),
            Files::Mfs(volume) => volume.info.volume_name(),
        }
    }

    /// How many folders and files it has.
    pub fn len(&self) -> usize
        ensures { result ≡ count_of self.now.files }
    {
        match &self.files {
            Files::Hfs(_, things) => things.len(),
            Files::Mfs(volume) => volume.files.len(),
        }
    }

    /// The name of a folder or a file, in MacRoman.
    pub fn name_of(&self, thing: usize) -> Option<&[u8]>
        ensures { option_map (λ name. name.now) result ≡ name_bytes self.now.files thing }
    {
        match &self.files {
            Files::Hfs(_, things) => Some(things.get(thing)?.name.as_bytes()),
            Files::Mfs(volume) => Some(volume.files.get(thing)?.name_bytes()),
        }
    }

    /// What it says of a folder or a file.
    pub fn info(&self, thing: usize) -> Option<Info>
        ensures { result ≡ thing_info self.now.files thing }
    {
        match &self.files {
            Files::Hfs(_, things) => Some(entry_info(things.get(thing)?)),
            Files::Mfs(volume) => Some(Info::File(file_info(volume.files.get(thing)?))),
        }
    }
}
