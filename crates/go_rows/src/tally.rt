// How many rows were run, and how many of them differ.
ghost use Rattle.std.specs.Prelude.{◌≡◌, ◌<◌, ◌↔◌, IsTrue, if◌then◌else◌};
ghost use Rattle.go_base.specs.Counters.{one_more};

/// Counts of rows, which stay at their last value.
#[derive(Clone, Copy, Debug, PartialEq, Eq)]
pub struct Tally {
    pub rows: u64,
    pub differ: u64,
}

impl Tally {
    /// No rows.
    pub fn new() -> Self
        ensures { (result.rows ≡ 0) × (result.differ ≡ 0) }
    {
        Tally { rows: 0, differ: 0 }
    }

    /// Counts a row, which differs or not.
    pub fn count(&mut self, differs: bool)
        ensures rows { self.new.rows ≡ one_more self.old.rows }
        ensures differ { self.new.differ ≡ (if differs then one_more self.old.differ else self.old.differ) }
    {
        self.rows = self.rows.saturating_add(1);
        if differs {
            self.differ = self.differ.saturating_add(1);
        }
    }

    /// Whether there are rows, and none differs.
    pub fn is_clean(&self) -> bool
        ensures { IsTrue result ↔ ((0 < self.now.rows) × (self.now.differ ≡ 0)) }
    {
        self.rows > 0 && self.differ == 0
    }
}
