// Patterns whose searches are worked out by hand.
ghost use Rattle.std.specs.Prelude.{◌≡◌};
ghost use Rattle.patterns.specs.Automaton.{read};
ghost use Rattle.verdicts.specs.Worked.{stuck, Worked};

use patterns::parts::Parts;
use patterns::row::{Operation, Row};

// Stays: worked tables differ in their numbers, and each has a definition of its own in specs that it is equal to.
static STUCK_ROOTS: [u16; 1] = [2];

static STUCK_ROWS: [Row; 3] = [
    Row {
        operation: Operation::Signal as u8,
        left: 0,
        right: 0,
    },
    Row {
        operation: Operation::State as u8,
        left: 0,
        right: 0,
    },
    Row {
        operation: Operation::And as u8,
        left: 0,
        right: 1,
    },
];

// STUCK: the signal on in every event, with no end, so that nothing is accepted. Its search ends in NEVER with the first
// query; `Worked` has that search, and those for LATCH over 3 rows, which ends in MATCHES, and over 2, which ends in FULL.
pub fn stuck() -> Parts<'static>
    ensures value { read result ≡ stuck }
    ensures worked { Worked }
{
    Parts {
        signals: 1,
        start: 0,
        finals: 0,
        roots: &STUCK_ROOTS,
        rows: &STUCK_ROWS,
    }
}
