// Small patterns, and calls on them.
use pairs::tables::pair_tables;
use patterns::parts::{Checked, Parts};
use patterns::questions::MAX_ROWS;
use patterns::row::{Operation, Row};
use sets::MAX_STATES;
use std::test::Fail;

static FIRST_ROOT: [u16; 1] = [0];

static LAST_ROOT: [u16; 1] = [2];

static STUCK_ROWS: [Row; 3] = [
    Row {
        operation: Operation::Signal as u8,
        left: 0,
        right: 0,
    },
    Row {
        operation: Operation::State as u8,
        left: 0,
        right: 0,
    },
    Row {
        operation: Operation::And as u8,
        left: 0,
        right: 1,
    },
];

static SECOND_SIGNAL: [Row; 1] = [Row {
    operation: Operation::Signal as u8,
    left: 1,
    right: 0,
}];

static TRUE_ROWS: [Row; 1] = [Row {
    operation: Operation::True as u8,
    left: 0,
    right: 0,
}];

// STUCK asks for the signal and for itself again, and never ends: it accepts nothing.
pub(crate) fn stuck() -> Parts<'static> {
    Parts {
        signals: 1,
        start: 0,
        finals: 0,
        roots: &LAST_ROOT,
        rows: &STUCK_ROWS,
    }
}

// Accepts every sequence, the empty one too.
pub(crate) fn everything() -> Parts<'static> {
    Parts {
        signals: 0,
        start: 0,
        finals: 1,
        roots: &FIRST_ROOT,
        rows: &TRUE_ROWS,
    }
}

// Of two signals, the second on in the first event.
pub(crate) fn second_on() -> Parts<'static> {
    Parts {
        signals: 2,
        start: 0,
        finals: 0,
        roots: &FIRST_ROOT,
        rows: &SECOND_SIGNAL,
    }
}

pub(crate) fn checked<'a>(parts: Parts<'a>) -> Result<Checked<'a>, Fail> {
    parts
        .checked()
        .map_err(|_| Fail::new("the parts are refused"))
}

// Whether "later without earlier" accepts the events.
pub(crate) fn accepts(later: Parts, earlier: Parts, events: &[u16]) -> Result<bool, Fail> {
    let mut roots = [0; MAX_STATES];
    let mut rows = [Row::default(); MAX_ROWS];
    let later = checked(later)?.seal();
    let earlier = checked(earlier)?.seal();
    let heading = pair_tables(&later, &earlier, &mut roots, &mut rows).map_err(|_| Fail::new(
        "the pair is refused",
    ))?;
    heading
        .parts(&roots, &rows)
        .accepts(events)
        .map_err(|_| Fail::new("the result is no pattern"))
}

// The number that refuses the pair in tables of so many roots and rows, if it is refused.
pub(crate) fn refusal(
    later: Parts,
    earlier: Parts,
    roots: usize,
    rows: usize,
) -> Result<Option<u8>, Fail> {
    let mut root_table = [0; MAX_STATES];
    let mut row_table = [Row::default(); MAX_ROWS];
    let later = checked(later)?.seal();
    let earlier = checked(earlier)?.seal();
    let made = pair_tables(
        &later,
        &earlier,
        &mut root_table[..roots.min(MAX_STATES)],
        &mut row_table[..rows.min(MAX_ROWS)],
    );
    Ok(made.err().map(|fault| fault.number()))
}
