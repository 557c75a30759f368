// LATCH without LATCH, in tables, with the cases worked out for it.
#![tactic(auto)]

ghost use Rattle.std.specs.Prelude.{◌≡◌};
ghost use Rattle.patterns.specs.Automaton.{read};
ghost use Rattle.pair_cases.specs.Cases.{pair_tables_of, Worked};

use patterns::parts::Parts;
use patterns::row::{Operation, Row};

// Stays: worked tables differ in their numbers, and each has a definition of its own in specs that it is equal to.
static ROOTS: [u16; 5] = [2, 0, 8, 4, 9];

static ROWS: [Row; 10] = [
    Row {
        operation: Operation::Signal as u8,
        left: 0,
        right: 0,
    },
    Row {
        operation: Operation::State as u8,
        left: 1,
        right: 0,
    },
    Row {
        operation: Operation::And as u8,
        left: 0,
        right: 1,
    },
    Row {
        operation: Operation::Signal as u8,
        left: 0,
        right: 0,
    },
    Row {
        operation: Operation::Not as u8,
        left: 3,
        right: 0,
    },
    Row {
        operation: Operation::False as u8,
        left: 0,
        right: 0,
    },
    Row {
        operation: Operation::State as u8,
        left: 3,
        right: 0,
    },
    Row {
        operation: Operation::False as u8,
        left: 0,
        right: 0,
    },
    Row {
        operation: Operation::Or as u8,
        left: 4,
        right: 6,
    },
    Row {
        operation: Operation::And as u8,
        left: 2,
        right: 8,
    },
];

// The tables of LATCH without LATCH. It accepts nothing: a search over 3 rows finds the sets 12, 6, 3 and says NEVER
// after 5 queries, and the inspector passes those three and fails the first two alone.
pub fn latch_without_latch() -> Parts<'static>
    ensures value { read result ≡ pair_tables_of }
    ensures worked { Worked }
{
    pair_in_tables()
}

fn pair_in_tables() -> Parts<'static>
    ensures { read result ≡ pair_tables_of }
{
    Parts {
        signals: 1,
        start: 4,
        finals: 12,
        roots: &ROOTS,
        rows: &ROWS,
    }
}
