//! Runs of bytes that may have been written: few, of which each has the bytes between two that are near each other.

/// How many runs are noted at most. Where there are more, the last one has the bytes between them.
pub const MOST_RUNS: usize = 16;

/// How far apart two runs are at most that become one.
const NEAR: usize = 64;

/// A run of bytes: the offset of its first byte, and that after its last.
#[derive(Clone, Copy, Debug, PartialEq, Eq)]
pub struct Run {
    pub start: usize,
    pub end: usize,
}

/// The runs that are noted.
#[derive(Clone, Copy)]
pub struct Runs {
    /// How many there are: the first ones.
    len: usize,
    runs: [Run; MOST_RUNS],
}

impl Run {
    ghost use Rattle.std.specs.Prelude.{ℕ, ◌≤◌, ◌++◌, [], ◌∷◌, List};
    ghost use Rattle.raw_region.specs.Runs.{IsNext};

    /// Whether few bytes are between this run and another.
    fn is_near(self, other: Run) -> bool {
        self.start <= other.end.saturating_add(NEAR) && other.start <= self.end.saturating_add(NEAR)
    }

    /// The run that has the bytes of this one and of another.
    fn joined(self, other: Run) -> Run
        ensures start { (result.start ≤ self.start) × (result.start ≤ other.start) }
        ensures end { (self.end ≤ result.end) × (other.end ≤ result.end) }
        ensures least { (n : ℕ) → self.end ≤ n → other.end ≤ n → result.end ≤ n }
    {
        Run {
            start: self.start.min(other.start),
            end: self.end.max(other.end),
        }
    }

    /// What is found from an offset on, or what this run has from there on, if that begins before.
    fn before(self, found: Option<Run>, from: usize) -> Option<Run>
        ensures { (rs : List Run) → IsNext rs from found → IsNext (rs ++ self ∷ []) from result }
    {
        let start = self.start.max(from);
        if self.end <= start {
            return found;
        }
        let next = Run {
            start,
            end: self.end,
        };
        match found {
            Some(run) => {
                if run.start <= start {
                    found
                } else {
                    Some(next)
                }
            }
            None => Some(next),
        }
    }
}

impl Runs {
    ghost use Rattle.std.specs.Prelude.{◌≡◌, ◌≤◌, ◌<◌, []};
    ghost use Rattle.raw_region.specs.Runs.{Adds, IsNext, noted};

    /// No run.
    pub fn new() -> Runs
        ensures { noted result ≡ [] }
    {
        let none = Run { start: 0, end: 0 };
        Runs {
            len: 0,
            runs: [none; MOST_RUNS],
        }
    }

    /// The place of the run that another one is added to, or a new place.
    fn place_for(&self, run: Run) -> usize
        ensures few { result < 16 }
        ensures there { result ≤ self.now.len }
    {
        for i in 0..self.len.min(MOST_RUNS) {
            if self.runs[i].is_near(run) {
                return i;
            }
        }
        self.len.min(MOST_RUNS - 1)
    }

    /// Notes the bytes of a run.
    pub(crate) fn add(&mut self, run: Run)
        ensures { Adds self.old self.new run }
    {
        let at = self.place_for(run);
        if at < self.len {
            self.runs[at] = self.runs[at].joined(run);
        } else {
            self.runs[at] = run;
            self.len += 1;
        }
    }

    /// The first bytes from an offset on that are in a run, up to where one of these runs ends.
    pub fn next(&self, from: usize) -> Option<Run>
        ensures { IsNext (noted self.now) from result }
    {
        let mut found = None;
        for i in 0..self.len.min(MOST_RUNS) {
            found = self.runs[i].before(found, from);
        }
        found
    }
}
