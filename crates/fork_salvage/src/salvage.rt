//! What can be read of a fork, item by item.

ghost use Rattle.std.specs.Prelude.{◌≡◌, ◌<◌, ◌≤◌, ◌+◌, ◌^◌, [], ◌∷◌, length, MatchOption};
ghost use Rattle.fork_salvage.specs.Plans.{IsPlan, reference_of};
ghost use Rattle.fork_salvage.specs.Salvage.{attributes_found, attributes_in, map_in, found_row, lost_row, item_of, items, plan_of, runs, runs_of};

use crate::cursor::{Cursor, keeps_all};
use crate::found::FoundRow;
use crate::number::{read_four, read_signed, read_two};
use crate::place::Span;
use crate::plan::{HEADER_LENGTH, MAP_HEADER_LENGTH, Plan, mended_plan, told_plan};
use crate::reference::{Loss, MapReference, find_bytes, find_name};
use bitflags::Flags;
use mac_base::resource::{ResAttrs, ResType};
use std::marker::Model;

/// Where the data of a fork begins if nothing else is known: after the header and 240 other bytes.
const USUAL_DATA: usize = 256;

/// A resource that can't be read.
#[derive(Clone, Copy, Debug, PartialEq, Eq)]
pub struct LostRow {
    pub kind: ResType,
    /// The id, if it lies within the map.
    pub id: Option<i16>,
    /// Where the reference is in the fork, or should be.
    pub reference: usize,
    pub loss: Loss,
}

/// One thing that is found in a fork, or is missing from it.
#[derive(Clone, Copy, Debug, PartialEq, Eq)]
pub enum Item {
    Row(FoundRow),
    Lost(LostRow),
    /// There are more references than the map has room for: those after the ones before it are left out.
    More,
    /// Bytes after their length, as a resource has them, in a fork in which no type is found.
    Run(Span),
}

/// Runs of a length and so many bytes: where the next one is, and how many there are at most.
#[derive(Clone, Copy)]
struct Chain {
    at: usize,
    most: usize,
}

/// What is left to be read of a fork, with as many references as it has room for. A contract sees the list of items.
#[derive(Drop)]
pub struct Salvage<'a> {
    fork: &'a [u8],
    plan: Plan,
    cursor: Cursor,
    room: usize,
    chain: Chain,
}

impl<'a> Model for Salvage<'a> {
    ghost use Rattle.std.specs.Prelude.{List};
    ghost use Rattle.fork_salvage.specs.declared.salvage.Item.{Item};
    ghost use Rattle.fork_salvage.specs.Plans.{IsPlan, IsCursor, items_left};

    ghost Value = { List Item };

    ghost view = { λ s. items_left s.fork.now s.plan s.cursor s.room s.chain };

    ghost invariant = { λ s. IsPlan s.fork.now s.plan × IsCursor s.plan s.cursor };
}

impl<'a> Salvage<'a> {
    /// All that can be read of a fork, and what can't be, in the map's order: an item for each reference. Where lists
    /// overlap so that there are more of them than the map has room for, the last item says that the others are left
    /// out. Where no type is found in a damaged fork, the runs of its data.
    pub fn new(fork: &'a [u8]) -> Salvage<'a>
        ensures { result ≡ items fork.now }
    {
        let plan = plan_of(fork);
        Salvage {
            fork,
            plan,
            cursor: Cursor::new(),
            room: plan.most_rows(fork),
            chain: chain_of(fork, &plan),
        }
    }

    /// The next item, or None after the last.
    pub fn next(&mut self) -> Option<Item>
        ensures { MatchOption result ((self.old ≡ []) × (self.new ≡ [])) (λ item. self.old ≡ item ∷ self.new) }
    {
        match self.cursor.next(self.fork, &self.plan) {
            Some(_) if self.room == 0 => {
                self.cursor = Cursor::after(&self.plan);
                Some(Item::More)
            }
            Some(reference) => {
                self.room -= 1;
                Some(item_of(self.fork, &self.plan, reference))
            }
            None => self.chain.next(self.fork),
        }
    }
}

impl Chain {
    /// The next run, or None after the last.
    fn next(&mut self, fork: &[u8]) -> Option<Item>
        ensures { MatchOption result ((runs self.old.most self.old.at fork.now ≡ []) × (runs self.new.most self.new.at fork.now ≡ []))
            (λ item. runs self.old.most self.old.at fork.now ≡ item ∷ runs self.new.most self.new.at fork.now) }
    {
        if self.most == 0 || fork.len() < self.at || fork.len() - self.at < 4 {
            return None;
        }
        let start = self.at + 4;
        let length = read_four(fork, self.at);
        if fork.len() - start < length {
            return None;
        }
        self.at = start + length;
        self.most -= 1;
        Some(Item::Run(Span { start, length }))
    }
}

/// How a fork is read: as it says, if nothing is lost by that.
fn plan_of(fork: &[u8]) -> Plan
    ensures plan { result ≡ plan_of fork.now }
    ensures within { IsPlan fork.now result }
{
    if let Some(plan) = told_plan(fork)
        && keeps_all(fork, &plan)
    {
        return plan;
    }
    mended_plan(fork)
}

/// The attributes of the map of a fork, as far as it can be read: zero where no map has a header.
pub fn find_attributes(fork: &[u8]) -> u16
    ensures { result ≡ attributes_found fork.now }
{
    attributes_in(plan_of(fork).map.of(fork))
}

/// The attributes of a map; zero where it has no header.
fn attributes_in(map: &[u8]) -> u16
    ensures { result ≡ attributes_in map.now }
{
    if map.len() < MAP_HEADER_LENGTH {
        return 0;
    }
    read_two(map, 22) as u16
}

/// The runs that are read of a fork: none where its types are.
fn chain_of(fork: &[u8], plan: &Plan) -> Chain
    ensures { runs result.most result.at fork.now ≡ runs_of fork.now plan.now }
{
    let start = plan.data.start;
    let at = if start >= HEADER_LENGTH && start < fork.len() {
        start
    } else {
        USUAL_DATA
    };
    let found = !plan.mended || plan.types.count > 0;
    Chain {
        at,
        most: if found { 0 } else { fork.len() },
    }
}

/// What is found for a reference.
fn item_of(fork: &[u8], plan: &Plan, reference: MapReference) -> Item
    requires plan { IsPlan fork.now plan.now }
    requires header { 28 ≤ length (map_in fork.now plan.now) }
    requires small { reference.place < 2 ^ 32 }
    ensures { result ≡ item_of fork.now plan.now (reference_of reference) }
{
    match find_bytes(fork, plan, reference.place) {
        Ok(bytes) => Item::Row(found_row(fork, plan, reference, bytes)),
        Err(loss) => Item::Lost(lost_row(fork, plan, reference, loss)),
    }
}

/// The row of a reference with the place of its bytes.
fn found_row(fork: &[u8], plan: &Plan, reference: MapReference, bytes: Span) -> FoundRow
    requires plan { IsPlan fork.now plan.now }
    requires header { 28 ≤ length (map_in fork.now plan.now) }
    requires within { reference.place + 12 ≤ length (map_in fork.now plan.now) }
    ensures { result ≡ found_row fork.now plan.now (reference_of reference) bytes }
{
    let at = reference.place;
    let map = plan.map.of(fork);
    FoundRow {
        kind: reference.kind,
        id: read_signed(map, at),
        name: find_name(fork, plan, at),
        attributes: ResAttrs::from_bits_retain(map[at + 4]),
        reference: plan.map.start + at,
        bytes,
    }
}

/// What is reported of a reference that hasn't its bytes.
fn lost_row(fork: &[u8], plan: &Plan, reference: MapReference, loss: Loss) -> LostRow
    requires plan { IsPlan fork.now plan.now }
    requires small { reference.place < 2 ^ 32 }
    ensures { result ≡ lost_row fork.now plan.now (reference_of reference) loss }
{
    let at = reference.place;
    let map = plan.map.of(fork);
    LostRow {
        kind: reference.kind,
        id: if at + 2 <= map.len() {
            Some(read_signed(map, at))
        } else {
            None
        },
        reference: plan.map.start + at,
        loss,
    }
}
