// Patterns worked out by hand, beside LATCH.
use patterns::examples::latch;
use patterns::parts::Parts;
use patterns::row::{Operation, Row};

static STUCK_ROOTS: [u16; 1] = [2];

static STUCK_ROWS: [Row; 3] = [
    Row {
        operation: Operation::Signal as u8,
        left: 0,
        right: 0,
    },
    Row {
        operation: Operation::State as u8,
        left: 0,
        right: 0,
    },
    Row {
        operation: Operation::And as u8,
        left: 0,
        right: 1,
    },
];

// STUCK: one state that asks for the signal and for itself again, and none final, so no sequence is long enough.
pub(crate) fn stuck() -> Parts<'static> {
    Parts {
        signals: 1,
        start: 0,
        finals: 0,
        roots: &STUCK_ROOTS,
        rows: &STUCK_ROWS,
    }
}

static DIFFERENCE_ROOTS: [u16; 5] = [2, 0, 8, 4, 9];

// Stays: a constant's row names its operation like the others, which `Row::default()` would not.
static DIFFERENCE_ROWS: [Row; 10] = [
    Row {
        operation: Operation::Signal as u8,
        left: 0,
        right: 0,
    },
    Row {
        operation: Operation::State as u8,
        left: 1,
        right: 0,
    },
    Row {
        operation: Operation::And as u8,
        left: 0,
        right: 1,
    },
    Row {
        operation: Operation::Signal as u8,
        left: 0,
        right: 0,
    },
    Row {
        operation: Operation::Not as u8,
        left: 3,
        right: 0,
    },
    Row {
        operation: Operation::False as u8,
        left: 0,
        right: 0,
    },
    Row {
        operation: Operation::State as u8,
        left: 3,
        right: 0,
    },
    Row {
        operation: Operation::False as u8,
        left: 0,
        right: 0,
    },
    Row {
        operation: Operation::Or as u8,
        left: 4,
        right: 6,
    },
    Row {
        operation: Operation::And as u8,
        left: 2,
        right: 8,
    },
];

// LATCH without LATCH: what LATCH accepts and LATCH does not. States 0 and 1 are LATCH's, 2 and 3 its states with dual
// conditions, of which all are final, and the start 4 asks for both.
pub(crate) fn difference() -> Parts<'static> {
    Parts {
        signals: 1,
        start: 4,
        finals: 12,
        roots: &DIFFERENCE_ROOTS,
        rows: &DIFFERENCE_ROWS,
    }
}

static WIDE_ROOTS: [u16; 1] = [0];

static WIDE_ROWS: [Row; 1] = [Row {
    operation: Operation::Signal as u8,
    left: 15,
    right: 0,
}];

// One state over 16 signals, final, that asks for the last signal.
// Stays: like `stuck` and `difference` in form alone, as constants of one struct are.
pub(crate) fn wide() -> Parts<'static> {
    Parts {
        signals: 16,
        start: 0,
        finals: 1,
        roots: &WIDE_ROOTS,
        rows: &WIDE_ROWS,
    }
}

// LATCH with a start that is none of its states.
pub(crate) fn unstarted() -> Parts<'static> {
    Parts {
        start: 2,
        ..latch()
    }
}
