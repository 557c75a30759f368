// The backward antichain search of a kind: the types that it is about, and which tables it may be made over.
#![tactic(auto)]

ghost use Rattle.std.specs.Prelude.{Decides};
ghost use Rattle.search.specs.Promise.{RowsFor, Admits, KeepsPromise};
ghost use Rattle.search.specs.Like.{OrderFree};

use kinds::{Kind, Move};

// A row of the table of finds: a configuration, and how the search came to it.
#[derive(Clone, Copy, PartialEq, Eq, Debug)]
pub struct Find<C> {
    pub configuration: C,
    // The row that it came from; 0 for a first configuration.
    pub origin: usize,
    // The move that leads back to it from there; 0 for a first configuration.
    pub via: Move,
    // How many moves lead back to it from a first configuration.
    pub length: usize,
}

// What a search ends in.
#[derive(Clone, Copy, PartialEq, Eq, Debug)]
pub enum Verdict {
    // MATCHES: the last find is a goal, and the moves along its origins are a shortest accepted list.
    Matches,
    // NEVER: every row is closed, so nothing is accepted.
    Never,
    // FULL: there was one more find than the table has rows.
    Full,
}

// The verdict of a search, if it has one, and its counts.
#[derive(Clone, Copy, PartialEq, Eq, Debug)]
pub struct Tally {
    pub verdict: Option<Verdict>,
    // How many finds are recorded, and how many of them by opening.
    pub finds: usize,
    pub starts: usize,
    pub queries: usize,
    // Everything accepted is longer than this, unless the verdict is MATCHES or NEVER; it is 0 there.
    pub cleared: usize,
}

// The most rows that a table of finds may have.
pub const MAX_ROWS: usize = 4_096;

// Yes if and only if a search of this kind may be made over a table of this many rows: there are 1 to MAX_ROWS of
// them, and no fewer than first configurations. Every search over such a table keeps what searches promise, and no
// search depends on the order in which its store holds configurations.
pub fn admits_rows<K: Kind>(kind: &K, rows: usize) -> bool
    ensures test { Decides result (Admits (K.shape kind.now) rows) }
    ensures keeps_promise { KeepsPromise (K.shape kind.now) }
    ensures order_free { OrderFree (K.shape kind.now) }
{
    are_rows_for(kind.first_count(), rows)
}

// Yes if and only if a table of this many rows is neither too short, for as many first configurations, nor too long.
fn are_rows_for(firsts: usize, rows: usize) -> bool
    ensures { Decides result (RowsFor firsts rows) }
{
    1 <= rows && rows <= MAX_ROWS && firsts <= rows
}
