//! Files that C holds as bytes, and made again of them.

ghost use Rattle.std.specs.Prelude.{◌≡◌};
ghost use Rattle.held_files.specs.Saving.{Loads, Saves};

use crate::files::ForkFiles;
use crate::held::MrFiles;
use held_zone::zone::MhZone;
use row_image::SaveFault;
use std::alloc::Global;

impl MrFiles {
    /// The bytes that the files are saved as over a zone, where there are files and a zone, which both stay.
    pub fn save(&mut self, alloc: Global, zone: &mut MhZone) -> Option<Result<Vec<u8>, SaveFault>>
        ensures saves { Saves zone.old.held.session self.old.held.files result }
        ensures zone { zone.new.held.session ≡ zone.old.held.session }
        ensures files { self.new.held.files ≡ self.old.held.files }
    {
        let (files, session) = self.take_with(alloc, zone)?;
        let saved = files.save(alloc, &session);
        self.put(files);
        zone.put(session);
        Some(saved)
    }

    /// Makes files of the bytes that they were saved as over a zone, which stays, where there are none.
    pub fn load(
        &mut self,
        alloc: Global,
        zone: &mut MhZone,
        bytes: &[u8],
    ) -> Option<Result<(), SaveFault>>
        ensures loads { Loads zone.old.held.session self.old.held.files bytes.now result self.new.held.files }
        ensures zone { zone.new.held.session ≡ zone.old.held.session }
    {
        if let Some(begun) = self.take(alloc) {
            self.put(begun);
            return None;
        }
        let session = zone.take(alloc)?;
        let loaded = ForkFiles::load(alloc, &session, bytes);
        zone.put(session);
        match loaded {
            Ok(files) => {
                self.put(files);
                Some(Ok(()))
            }
            Err(fault) => Some(Err(fault)),
        }
    }
}
