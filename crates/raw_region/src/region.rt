//! A region of bytes.

ghost use Rattle.std.specs.Prelude.{◌≡◌, ◌^◌, ◌<◌, [], replicate, IfOk};

use crate::cells::Cells;
use crate::memory::{Room, Source};
use crate::runs::Runs;
use mac_base::error::HostFull;
use std::alloc::Global;
use std::marker::Model;

mod access;
mod blocks;
mod host;
mod loans;
mod pieces;

/// One run of bytes, of which ranges can be lent out. A contract sees its name, which has the bytes that it had at first,
/// its bytes by offset and the ranges that are lent. Which bytes a call reads or writes, and that none of them is lent, is up to the caller: no call tests it
/// when it runs. After `create` no call takes memory of the host.
pub struct Region {
    cells: Cells,

    // Where it is none, the bytes are the host's own.
    source: Option<Source>,

    // Which bytes may differ from those that the region had at first.
    noted: Runs,
}

impl Model for Region {
    ghost use Rattle.std.specs.Prelude.{◌≡◌, IfSome};
    ghost use Rattle.raw_region.specs.Runs.{DifferIn};
    ghost use Rattle.raw_region.specs.State.{State};

    ghost Value = { State };

    ghost view = { λ r. record { name = r.cells.home; bytes = r.cells.bytes; lent = r.cells.lent } };

    ghost invariant = { λ r. (r.cells.from ≡ 0) × IfSome r.source (λ s. (s.lease.alloc ≡ s.alloc)
        × (s.lease.at ≡ r.cells.at) × (s.lease.len ≡ r.cells.len)) × DifferIn r.noted r.cells.home.1 r.cells.bytes };
}

impl Region {
    /// A region of `len` bytes, all zero, of which none is lent. The only error is that the host has no memory.
    pub fn create(alloc: Global, len: usize) -> Result<Region, HostFull>
        requires { len < 2 ^ 63 }
        ensures { IfOk result (λ r. (r.bytes ≡ replicate len 0) × (r.lent ≡ [])) }
    {
        match Room::new(&alloc, len) {
            Some((mut room, lease)) => {
                for i in 0..len {
                    room.put(i);
                }
                Ok(Region {
                    cells: room.filled(),
                    source: Some(Source { lease, alloc }),
                    noted: Runs::new(),
                })
            }
            None => Err(HostFull),
        }
    }
}

impl Drop for Region {
    /// A region ends only when nothing of it is lent. Memory of the allocator goes back to it.
    fn drop(self)
        requires nothing_lent { self.lent ≡ [] }
    {
        let Region {
            cells,
            source,
            noted: _,
        } = self;
        match source {
            Some(Source { lease, alloc }) => cells.free(lease, &alloc),
            None => drop(cells.hand_back()),
        }
    }
}
