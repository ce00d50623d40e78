//! What free bytes gaps have, by the sums of the blocks that begin in each leaf of a zone.

ghost use Rattle.std.specs.Prelude.{◌≡◌, ◌<◌, MatchOption};
ghost use Rattle.mac_base.specs.Reports.{largest_room};
ghost use Rattle.zone_index.specs.Leaves.{leaf_count};
ghost use Rattle.zone_index.specs.Rooms.{AreFresh, AreRooms, Reaches, SumsBelow, room_in, room_of};

use crate::leaves::LEAF_SIZE;
use crate::weight::{Weight, weigh};
use linked_zone::LinkedZone;
use sum_tree::{HasRoom, Monoid, Source, Span, StaleTree};

/// A zone, from whose blocks the sums are made.
#[derive(Drop)]
struct Leaves<'a> {
    zone: &'a LinkedZone,
}

impl Source<Span> for Leaves<'_> {
    ghost use Rattle.zone_index.specs.Leaves.{leaf_count};
    ghost use Rattle.zone_index.specs.Rooms.{room_in};

    ghost leaves = { λ s. leaf_count s.zone.now };

    ghost value = { λ s. room_in s.zone.now };

    fn measure(&self, leaf: usize) -> Span {
        measure(self.zone, leaf)
    }
}

/// What one block has of the free bytes of gaps.
fn span_of(weight: Weight) -> Span
    ensures { result ≡ room_of weight }
{
    if weight.fixed {
        Span::FIXED
    } else {
        Span::Whole(weight.free)
    }
}

/// The sum of a leaf, by a walk over the blocks that begin in it.
fn measure(zone: &LinkedZone, leaf: usize) -> Span
    requires { leaf < leaf_count zone.now }
    ensures { result ≡ room_in zone.now leaf }
{
    let spec = zone.spec();
    let base = spec.base();
    let start = base + leaf as u32 * LEAF_SIZE;
    let end = start.saturating_add(LEAF_SIZE).min(base + spec.size());
    let mut sum = Span::none();
    let Some(mut at) = zone.first_from(start) else {
        return sum;
    };
    while at < end {
        let here = zone.entry_at(at);
        sum = sum.join(span_of(weigh(zone, here.size, here.kind)));
        at += here.size;
    }
    sum
}

/// Makes the stale sums anew.
pub fn freshen(zone: &LinkedZone, rooms: &mut StaleTree<Span>)
    requires { AreRooms zone.now rooms.old }
    ensures { AreFresh zone.now rooms.new }
{
    let spec = zone.spec();
    let _limit = spec.limit();
    rooms.freshen(&Leaves { zone });
}

/// The block with which some gap has at least `needed` free bytes for the first time.
pub fn reached(zone: &LinkedZone, rooms: &StaleTree<Span>, needed: u32) -> Option<u32>
    requires some { 0 < needed }
    requires fresh { AreFresh zone.now rooms.now }
    ensures { MatchOption result (largest_room zone.now.heap.table zone.now.heap.map < needed) (λ at. Reaches zone.now needed at) }
{
    let spec = zone.spec();
    let base = spec.base();
    let test = HasRoom { bytes: needed };
    let stop = rooms.sums().first(&test)?;
    let from = base + stop.at as u32 * LEAF_SIZE;
    reach(zone, from, stop.sum, needed)
}

/// The same by a walk over the blocks from an address on, where those below have a sum.
fn reach(zone: &LinkedZone, from: u32, below: Span, needed: u32) -> Option<u32>
    requires { SumsBelow zone.now from needed below }
    ensures { MatchOption result (largest_room zone.now.heap.table zone.now.heap.map < needed) (λ at. Reaches zone.now needed at) }
{
    let spec = zone.spec();
    let end = spec.base() + spec.size();
    let mut sum = below;
    let mut at = zone.first_from(from)?;
    while at < end {
        let here = zone.entry_at(at);
        let next = sum.join(span_of(weigh(zone, here.size, here.kind)));
        if next.most() >= needed {
            return Some(at);
        }
        sum = next;
        at += here.size;
    }
    None
}

/// The most free bytes that one gap has.
pub fn most_room(zone: &LinkedZone, rooms: &StaleTree<Span>) -> u32
    requires { AreFresh zone.now rooms.now }
    ensures { result ≡ largest_room zone.now.heap.table zone.now.heap.map }
{
    let spec = zone.spec();
    let _limit = spec.limit();
    rooms.sums().total().most()
}
