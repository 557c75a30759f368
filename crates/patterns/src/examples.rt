// Patterns worked out by hand.
ghost use Rattle.std.specs.Prelude.{◌≡◌};
ghost use Rattle.patterns.specs.Automaton.{read};
ghost use Rattle.patterns.specs.Latch.{latch, Worked};

use crate::parts::Parts;
use crate::row::{Operation, Row};

// Stays: worked tables differ in their numbers, and each has a definition of its own in specs that it is equal to.
static LATCH_ROOTS: [u16; 2] = [2, 0];

static LATCH_ROWS: [Row; 3] = [
    Row {
        operation: Operation::Signal as u8,
        left: 0,
        right: 0,
    },
    Row {
        operation: Operation::State as u8,
        left: 1,
        right: 0,
    },
    Row {
        operation: Operation::And as u8,
        left: 0,
        right: 1,
    },
];

// LATCH: the signal on in the first two events. It accepts 1,1 and 3,1,0, and rejects the empty sequence and 1,0.
pub fn latch() -> Parts<'static>
    ensures value { read result ≡ latch }
    ensures worked { Worked }
{
    latch_tables()
}

fn latch_tables() -> Parts<'static>
    ensures { read result ≡ latch }
{
    Parts {
        signals: 1,
        start: 0,
        finals: 0,
        roots: &LATCH_ROOTS,
        rows: &LATCH_ROWS,
    }
}
