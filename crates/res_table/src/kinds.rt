//! The types of rows, in order: how many rows of one type are together.

ghost use Rattle.std.specs.Prelude.{◌≡◌, ◌≤◌, ◌<◌, ◌+◌, ◌^◌, ◌++◌, ◌∷◌, [], length, map, take, drop, get_or, remove, true, false, not, bytes_eq, nat_lt, ◌&&◌, if◌then◌else◌, Some, None, IfSome, IfNone, IsTrue, OnOk};
ghost use Rattle.res_table.specs.Kinds.{are_types, is_run_of, is_other, expanded, has_kind, kind_in, count_of, changes, places_of, end_of, with_kind, ith, kind_of};

use crate::keys::is_same_kind;
use fork_bytes::layout::TypeCount;
use mac_base::error::HostFull;
use mac_base::resource::ResType;
use std::alloc::Global;
use std::marker::Model;

/// Whether a run has rows of a type.
fn is_run_of(run: TypeCount, kind: ResType) -> bool
    ensures { result ≡ is_run_of kind run }
{
    is_same_kind(run.kind, kind) && run.count > 0
}

/// Whether a run has rows, and not of the type of the last before it that has any.
fn begins_type(last: &TypeCount, run: &TypeCount) -> bool
    ensures { result ≡ (not (is_run_of run.now.kind last.now) && nat_lt 0 run.now.count) }
{
    !is_run_of(*last, run.kind) && run.count > 0
}

/// The last run that has rows, up to this one.
fn last_with_rows(last: &TypeCount, run: &TypeCount) -> TypeCount
    ensures { kind_in result ≡ (if nat_lt 0 run.now.count then Some run.now.kind else kind_in last.now) }
{
    if run.count > 0 { *run } else { *last }
}

/// How many rows of a type a run has.
fn counted(run: TypeCount, kind: ResType) -> usize
    ensures { result ≡ (if bytes_eq run.kind kind then run.count else 0) }
{
    if is_same_kind(run.kind, kind) {
        run.count
    } else {
        0
    }
}

/// The last run that has rows of a type, if there is one.
fn last_run(runs: &[TypeCount], kind: ResType) -> Option<usize>
    ensures some { IfSome result (λ at. (at < length runs.now) × (is_run_of kind (get_or runs.now at (record { kind = []; count = 0 })) ≡ true)
        × (has_kind kind (expanded (drop (at + 1) runs.now)) ≡ false)) }
    ensures none { IfNone result (has_kind kind (expanded runs.now) ≡ false) }
{
    let mut index = runs.len();
    while index > 0 {
        if is_run_of(runs[index - 1], kind) {
            return Some(index - 1);
        }
        index -= 1;
    }
    None
}

/// The run that has the row at an index.
fn run_with(runs: &[TypeCount], place: usize) -> usize
    requires { place < length (expanded runs.now) }
    ensures within { result < length runs.now }
    ensures start { length (expanded (take result runs.now)) ≤ place }
    ensures end { place < length (expanded (take (result + 1) runs.now)) }
{
    let mut left = place;
    let mut index = 0;
    while left >= runs[index].count {
        left -= runs[index].count;
        index += 1;
    }
    index
}

/// Whether a run is of the type that is before it, if there is one.
fn repeats(last: Option<ResType>, run: &TypeCount) -> bool
    ensures { not result ≡ is_other last run.now.kind }
{
    match last {
        Some(kind) => is_same_kind(kind, run.kind),
        None => false,
    }
}

/// Whether each run has rows, and of another type than the run before it.
fn are_types(runs: &[TypeCount]) -> bool
    ensures { result ≡ are_types None runs.now }
{
    let mut last = None;
    for run in runs {
        if run.count == 0 || repeats(last, run) {
            return false;
        }
        last = Some(run.kind);
    }
    true
}

/// The i-th of some types, counted from 1.
pub fn ith_type(types: &[TypeCount], i: usize) -> Option<ResType>
    ensures { result ≡ ith i (map kind_of types.now) }
{
    if i == 0 || i > types.len() {
        return None;
    }
    Some(types[i - 1].kind)
}

/// The types of rows, in order: each with how many rows of it are together. So what is asked of a type doesn't go
/// through the rows. A contract sees these runs, and how many there is room for.
#[derive(Drop)]
pub struct Kinds {
    runs: Vec<TypeCount>,
    /// It was seen that no run is of the type of the run before it: so it is while the rows of each type are together.
    seen: bool,
}

impl Model for Kinds {
    ghost use Rattle.std.specs.Prelude.{IsTrue, None, vec_capacity};
    ghost use Rattle.res_table.specs.Kinds.{KindRuns, are_types};

    ghost Value = { KindRuns };

    ghost view = { λ k. record { runs = k.runs.items; room = vec_capacity k.runs } };

    ghost invariant = { λ k. IsTrue k.seen → IsTrue (are_types None k.runs.items) };
}

impl Kinds {
    /// The types of no rows. This takes no memory of the host.
    pub fn new(alloc: Global) -> Kinds
        ensures { expanded result.runs ≡ [] }
    {
        Kinds {
            runs: Vec::new(alloc),
            seen: false,
        }
    }

    /// Makes room for one more run.
    pub fn reserve(&mut self) -> Result<(), HostFull>
        ensures same { self.new.runs ≡ self.old.runs }
        ensures room { OnOk result (length self.new.runs < self.new.room) }
    {
        self.runs.reserve(1)?;
        Ok(())
    }

    /// Sees whether the runs are types.
    pub fn settle(&mut self)
        ensures { self.new.runs ≡ self.old.runs }
    {
        self.seen = are_types(&self.runs);
    }

    /// The types in order, each with how many rows it has, where it was seen that the runs are these.
    pub fn types(&self) -> Option<&[TypeCount]>
        ensures { IfSome result (λ types. (types.now ≡ self.now.runs) × IsTrue (are_types None types.now)) }
    {
        if self.seen { Some(&self.runs) } else { None }
    }

    /// Adds the type of a row after all others. Whether the runs are types is to be seen again.
    pub fn push(&mut self, kind: ResType) -> Result<(), HostFull>
        requires { length (expanded self.old.runs) + 1 < 2 ^ 64 }
        ensures { OnOk result (expanded self.new.runs ≡ expanded self.old.runs ++ kind ∷ []) }
    {
        self.seen = false;
        let count = self.runs.len();
        if count > 0 {
            let last = self.runs[count - 1];
            if is_same_kind(last.kind, kind) {
                self.runs[count - 1] = TypeCount {
                    kind,
                    count: last.count + 1,
                };
                return Ok(());
            }
        }
        self.runs.push(TypeCount { kind, count: 1 })?;
        Ok(())
    }

    /// How many rows have a type.
    pub fn count(&self, kind: ResType) -> usize
        requires { length (expanded self.now.runs) < 2 ^ 64 }
        ensures { result ≡ count_of kind (expanded self.now.runs) }
    {
        let mut count = 0;
        for run in &self.runs {
            count += counted(*run, kind);
        }
        count
    }

    /// How many types there are, where one is counted anew after another.
    pub fn count_types(&self) -> usize
        ensures { result ≡ changes None (expanded self.now.runs) }
    {
        let mut count = 0;
        let mut last = TypeCount {
            kind: ResType::new([0; 4]),
            count: 0,
        };
        for run in &self.runs {
            if begins_type(&last, run) {
                count += 1;
            }
            last = last_with_rows(&last, run);
        }
        count
    }

    /// Where the i-th row of a type is, counted from 1.
    pub fn ith(&self, kind: ResType, i: usize) -> Option<usize>
        requires { length (expanded self.now.runs) < 2 ^ 64 }
        ensures { result ≡ ith i (places_of 0 kind (expanded self.now.runs)) }
    {
        if i == 0 {
            return None;
        }
        let mut left = i - 1;
        let mut at = 0;
        for run in &self.runs {
            if is_run_of(*run, kind) {
                if left < run.count {
                    return Some(at + left);
                }
                left -= run.count;
            }
            at += run.count;
        }
        None
    }

    /// Where the last row of a type ends, or this index where there is none.
    pub fn end(&self, kind: ResType, none: usize) -> usize
        requires { length (expanded self.now.runs) < 2 ^ 64 }
        ensures { result ≡ end_of kind none 0 (expanded self.now.runs) }
    {
        let mut end = none;
        let mut at = 0;
        for run in &self.runs {
            at += run.count;
            if is_run_of(*run, kind) {
                end = at;
            }
        }
        end
    }

    /// Adds the type of a row after the last of the same type, or last where there is none.
    pub fn add(&mut self, kind: ResType)
        requires small { length (expanded self.old.runs) + 1 < 2 ^ 64 }
        requires room { length self.old.runs < self.old.room }
        ensures { expanded self.new.runs ≡ with_kind kind (expanded self.old.runs) }
    {
        self.count_one_more(kind);
        self.settle();
    }

    /// Counts one more of a type, in its last run or in one after all others.
    fn count_one_more(&mut self, kind: ResType)
        requires small { length (expanded self.old.runs) + 1 < 2 ^ 64 }
        requires room { length self.old.runs < self.old.room }
        ensures { expanded self.new.runs ≡ with_kind kind (expanded self.old.runs) }
    {
        self.seen = false;
        match last_run(&self.runs, kind) {
            Some(index) => {
                let run = self.runs[index];
                self.runs[index] = TypeCount {
                    kind,
                    count: run.count + 1,
                };
            }
            None => {
                let _ = self.runs.push(TypeCount { kind, count: 1 });
            }
        }
    }

    /// Takes out the type of the row at an index.
    pub fn remove(&mut self, place: usize)
        requires { place < length (expanded self.old.runs) }
        ensures { expanded self.new.runs ≡ remove (expanded self.old.runs) place }
    {
        self.count_one_less(place);
        self.settle();
    }

    /// Counts one less in the run of the row at an index.
    fn count_one_less(&mut self, place: usize)
        requires { place < length (expanded self.old.runs) }
        ensures { expanded self.new.runs ≡ remove (expanded self.old.runs) place }
    {
        self.seen = false;
        let index = run_with(&self.runs, place);
        let run = self.runs[index];
        if run.count == 1 {
            let _run = self.runs.remove(index);
        } else {
            self.runs[index] = TypeCount {
                kind: run.kind,
                count: run.count - 1,
            };
        }
    }
}
