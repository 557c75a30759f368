// Patterns worked out by hand, beside LATCH.
use patterns::parts::Parts;
use patterns::row::{Operation, Row};

// Signal 0, state 0, and both.
static ROWS: [Row; 3] = [
    Row {
        operation: Operation::Signal as u8,
        left: 0,
        right: 0,
    },
    Row {
        operation: Operation::State as u8,
        left: 0,
        right: 0,
    },
    Row {
        operation: Operation::And as u8,
        left: 0,
        right: 1,
    },
];

// The pattern with these roots over these rows, whose one state or two are not final.
fn over_rows(roots: &'static [u16]) -> Parts<'static> {
    Parts {
        signals: 1,
        start: 0,
        finals: 0,
        roots,
        rows: &ROWS,
    }
}

static STUCK_ROOTS: [u16; 1] = [2];

// STUCK: one state that asks for the signal and for itself again, and none final, so no sequence is long enough.
pub(crate) fn stuck() -> Parts<'static> {
    over_rows(&STUCK_ROOTS)
}

static BESIDE_ROOTS: [u16; 2] = [2, 0];

// STUCK with a state beside it that asks for the signal alone. The start still leads nowhere, but there is something to
// find: the set of state 1, which covers the empty set.
pub(crate) fn stuck_beside() -> Parts<'static> {
    over_rows(&BESIDE_ROOTS)
}
