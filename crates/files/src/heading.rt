// The heading of a pattern file: all of a pattern but its tables, and how long these are.
ghost use Rattle.std.specs.Prelude.{◌≡◌, take};
ghost use Rattle.patterns.specs.Automaton.{read};
ghost use Rattle.files.specs.Fronts.{fronts_of};

use patterns::parts::Parts;
use patterns::row::Row;
use sets::States;

// The edition of the format that is read and written.
pub const EDITION: u8 = 1;

// The bytes of a heading, of a root and of a row.
pub const HEADING_LEN: usize = 16;

pub const ROOT_LEN: usize = 2;

pub const ROW_LEN: usize = 6;

#[derive(Clone, Copy)]
pub struct Heading {
    pub states: u8,
    pub signals: u8,
    pub start: u8,
    pub rows: u16,
    pub finals: States,
}

impl Heading {
    // The parts of the pattern with this heading whose tables are the fronts of these. Tables that are too short for it
    // are taken whole.
    pub fn parts<'a>(self, roots: &'a [u16], rows: &'a [Row]) -> Parts<'a>
        ensures { read result ≡ fronts_of self roots.now rows.now }
    {
        Parts {
            signals: self.signals,
            start: self.start,
            finals: self.finals,
            roots: front(roots, self.states as usize),
            rows: front(rows, self.rows as usize),
        }
    }
}

// The first `count` entries, or all where there are fewer.
fn front<T>(table: &[T], count: usize) -> &[T]
    ensures { result.now ≡ take count table.now }
{
    table.get(..count).unwrap_or(table)
}
