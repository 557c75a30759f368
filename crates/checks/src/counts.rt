// The counts of a check.
ghost use Rattle.std.specs.Prelude.{◌≡◌, ◌<◌, ◌≤◌, length, take, nat_le};
ghost use Rattle.search.specs.Search.{length_at};
ghost use Rattle.checks.specs.Calls.{begun_with};

use search::Find;

// How far a check has come.
// Stays: `finds` within `rows` is a ghost field of the states and not of this, since `noted` is defined of any counts.
#[derive(Clone, Copy)]
pub(crate) struct Counts {
    // How many rows the table had at opening.
    pub(crate) rows: usize,
    // How many rows are recorded.
    pub(crate) finds: usize,
    // The row that is being expanded.
    pub(crate) row: usize,
    // How many of the recorded rows opening recorded.
    pub(crate) starts: usize,
    // How many queries were made.
    pub(crate) queries: usize,
}

impl Counts {
    // The counts of a check that was just opened.
    pub(crate) fn begun(rows: usize, finds: usize) -> Counts
        ensures { result ≡ begun_with rows finds }
    {
        Counts {
            rows,
            finds,
            row: 0,
            starts: finds,
            queries: 0,
        }
    }

    // Whether as many rows are recorded as a table of so many rows has.
    pub(crate) fn is_full(self, rows: usize) -> bool
        ensures { result ≡ nat_le rows self.finds }
    {
        rows <= self.finds
    }

    // The length of the row that is being expanded.
    pub(crate) fn length_at<C>(self, table: &[Find<C>]) -> usize
        requires here { self.row < self.finds }
        requires room { self.finds ≤ length table.now }
        ensures { result ≡ length_at (take self.finds table.now) self.row }
    {
        table[self.row].length
    }
}
