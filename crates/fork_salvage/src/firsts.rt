//! The first entry of each type in a type list.

ghost use Rattle.std.specs.Prelude.{◌≡◌, ◌≢◌, ◌<◌, ◌+◌, ℕ, IfNone, IfOk, IfSome, OnOk};
ghost use Rattle.std.specs.BTreeMap.{get};
ghost use Rattle.std.specs.Cmp.Lexicographic.{slice_cmp};
ghost use Rattle.std.specs.Ordering.{nat_cmp};
ghost use Rattle.fork_bytes.specs.Fork.{places};
ghost use Rattle.fork_salvage.specs.Plans.{AreFirsts, IsTypes};
ghost use Rattle.fork_salvage.specs.Salvage.{told_list};
ghost use Rattle.fork_salvage.specs.Faults.{earlier_type};

use crate::entry::{Types, told_list};
use mac_base::resource::ResType;
use std::alloc::AllocError;
use std::collections::BTreeMap;

/// The index of the first entry of each type so far.
pub(crate) type Firsts = BTreeMap<[u8; 4], usize>;

/// The index of the first entry of a type, if one so far has it.
fn first_of(firsts: &Firsts, kind: ResType) -> Option<usize>
    ensures { result ≡ get (slice_cmp nat_cmp) firsts.now kind }
{
    firsts.get(&kind.bytes()).copied()
}

/// The index of the first entry that has the type of the next one, if there is one before it. From then on the next
/// one is one of those so far.
pub(crate) fn note_type(
    firsts: &mut Firsts,
    map: &[u8],
    types: Types,
    index: usize,
) -> Result<Option<usize>, AllocError>
    requires types { IsTypes map.now types }
    requires within { index < types.count }
    requires firsts { AreFirsts firsts.old map.now types index }
    ensures earlier { IfOk result (λ found. found ≡ earlier_type map.now types (told_list map.now types index).kind (places index 0 1)) }
    ensures some { IfOk result (λ found. IfSome found (λ i. (i < index) × ((told_list map.now types i).kind ≡ (told_list map.now types index).kind))) }
    ensures none { IfOk result (λ found. IfNone found ((i : ℕ) → i < index → (told_list map.now types i).kind ≢ (told_list map.now types index).kind)) }
    ensures noted { OnOk result (AreFirsts firsts.new map.now types (index + 1)) }
{
    let kind = told_list(map, types, index).kind;
    match first_of(firsts, kind) {
        Some(first) => Ok(Some(first)),
        None => {
            firsts.insert(kind.bytes(), index)?;
            Ok(None)
        }
    }
}
