//! The calls that say what all open files have together, over files that C holds.

ghost use Rattle.std.specs.Prelude.{◌≡◌};
ghost use Rattle.held_files.specs.Counting.{counted_on, CountedTold, CountedToldKind};

use crate::held::MrFiles;
use crate::told::kind;
use held_zone::told;
use held_zone::zone::MhZone;
use mac_base::Outcome;
use res_update::CountingCall;
use std::alloc::Global;

impl MrFiles {
    /// Makes a call that says what all open files have together, where there are files and a zone, which both stay.
    fn counted(&mut self, alloc: Global, zone: &mut MhZone, call: CountingCall) -> Option<Outcome>
        ensures outcome { result ≡ counted_on zone.old.held.session self.old.held.files call }
        ensures zone { zone.new.held.session ≡ zone.old.held.session }
        ensures files { self.new.held.files ≡ self.old.held.files }
    {
        if !zone.is_live() {
            return None;
        }
        let files = self.take(alloc)?;
        let outcome = files.count(call);
        self.put(files);
        Some(outcome)
    }

    /// Makes such a call, returns its code, and writes its number, where it gives one.
    pub fn count(
        &mut self,
        alloc: Global,
        zone: &mut MhZone,
        call: CountingCall,
        number: &mut u32,
    ) -> i16
        ensures { CountedTold zone.old.held.session self.old.held.files call result number.old number.new zone.new.held.session self.new.held.files }
    {
        told::number(&self.counted(alloc, zone, call), number)
    }

    /// Makes such a call, returns its code, and writes its resource type, where it gives one.
    pub fn count_kind(
        &mut self,
        alloc: Global,
        zone: &mut MhZone,
        call: CountingCall,
        number: &mut u32,
    ) -> i16
        ensures { CountedToldKind zone.old.held.session self.old.held.files call result number.old number.new zone.new.held.session self.new.held.files }
    {
        kind(&self.counted(alloc, zone, call), number)
    }
}
