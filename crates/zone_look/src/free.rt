//! The free master pointers of a zone.

ghost use Rattle.std.specs.Prelude.{◌≡◌, ◌+◌, ◌≤◌, length};
ghost use Rattle.std.specs.Bool.{OnFalse};
ghost use Rattle.zone_look.specs.Free.{free_list, is_outside, next_free};
ghost use Rattle.zone_look.specs.Zone.{IsZone};

use crate::blocks::fault_at;
use crate::dump::Dump;
use crate::fault::{Fault, Problem};
use mac_base::size::ZONE_HEADER;

/// Where the zone's header has the address of the first free master pointer.
const FREE_FIELD: u32 = 8;

/// How many free master pointers there are, and what is wrong after them.
#[derive(Clone, Copy, Debug, PartialEq, Eq)]
pub(crate) struct FreeMasters {
    pub(crate) count: u32,
    pub(crate) fault: Option<Fault>,
}

/// The address of the free master pointer that the word at a place says, 0 where it says none.
fn next_free(dump: &Dump, at: u32) -> u32
    requires { at + 4 ≤ length dump.now.bytes }
    ensures { result ≡ next_free dump.now at }
{
    2 * (dump.address_in(dump.word_at(at)) / 2)
}

/// Whether an address isn't that of four bytes between the zone's header and its end.
fn is_outside(dump: &Dump, end: u32, address: u32) -> bool
    requires { IsZone dump.now end }
    ensures outside { result ≡ is_outside dump.now end address }
    ensures low { OnFalse result (dump.now.base + 52 ≤ address) }
    ensures high { OnFalse result (address + 4 ≤ dump.now.base + end) }
{
    address < dump.base() + ZONE_HEADER || dump.base() + end - 4 < address
}

/// The free master pointers of a zone that ends at a place.
pub(crate) fn free_masters(dump: &Dump, end: u32) -> FreeMasters
    requires { IsZone dump.now end }
    ensures count { result.count ≡ length (free_list dump.now end).slots }
    ensures fault { result.fault ≡ (free_list dump.now end).fault }
{
    let mut at = FREE_FIELD;
    let most = end / 4;
    for count in 0..most {
        let next = next_free(dump, at);
        if next == 0 {
            return FreeMasters { count, fault: None };
        }
        if is_outside(dump, end, next) {
            let fault = Some(fault_at(dump, Problem::BadFree, at, next, 0));
            return FreeMasters { count, fault };
        }
        at = next - dump.base();
    }
    let fault = fault_at(dump, Problem::EndlessFree, FREE_FIELD, most, most - 1);
    FreeMasters {
        count: most,
        fault: Some(fault),
    }
}
