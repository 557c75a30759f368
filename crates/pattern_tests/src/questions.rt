// Each question at its first and last place, at its limits, and before the questions that come after it.
use patterns::parts::Parts;
use patterns::row::{Operation, Row};
use std::process::Abort;
use std::test::Fail;

fn at(operation: impl Into<u8>, left: u16, right: u16) -> Row {
    Row {
        operation: operation.into(),
        left,
        right,
    }
}

// The parts pass, or are refused under a number at a place.
type Answer = Result<(), (u8, usize)>;

fn check_gives(rt: &impl Abort, parts: Parts, expected: Answer) -> Result<(), Fail> {
    let answer = parts
        .check()
        .map_err(|fault| (fault.number(), fault.place()));
    assert_eq!(rt; answer, expected);
    Ok(())
}

// What so many states, signals and rows give.
fn sizes_give(
    rt: &impl Abort,
    states: usize,
    signals: u8,
    count: usize,
    expected: Answer,
) -> Result<(), Fail> {
    let roots = [0; 65];
    let rows = [Row::default(); 1025];
    if states > 65 || count > 1025 {
        return Err(Fail::new("at most 65 states and 1,025 rows"));
    }
    let parts = Parts {
        signals,
        start: 0,
        finals: 0,
        roots: &roots[..states],
        rows: &rows[..count],
    };
    check_gives(rt, parts, expected)
}

#[test]
fn sizes(rt: HostRuntime) -> Result<(), Fail> {
    sizes_give(&rt, 1, 0, 1, Ok(()))?;
    sizes_give(&rt, 64, 16, 1024, Ok(()))?;
    sizes_give(&rt, 0, 0, 1, Err((1, 0)))?;
    sizes_give(&rt, 65, 0, 1, Err((1, 0)))?;
    sizes_give(&rt, 1, 17, 1, Err((1, 0)))?;
    sizes_give(&rt, 1, 255, 1, Err((1, 0)))?;
    sizes_give(&rt, 1, 0, 0, Err((1, 0)))?;
    sizes_give(&rt, 1, 0, 1025, Err((1, 0)))
}

#[test]
fn start_and_final_states(rt: HostRuntime) -> Result<(), Fail> {
    let roots = [0; 64];
    let rows = [Row::default()];
    let one = Parts {
        signals: 0,
        start: 0,
        finals: 1,
        roots: &roots[0..1],
        rows: &rows,
    };
    check_gives(&rt, one, Ok(()))?;
    check_gives(&rt, Parts { start: 1, ..one }, Err((2, 0)))?;
    check_gives(&rt, Parts { finals: 2, ..one }, Err((2, 0)))?;
    check_gives(
        &rt,
        Parts {
            finals: 1 << 63,
            ..one
        },
        Err((2, 0)),
    )?;
    let all = Parts {
        start: 63,
        finals: u64::MAX,
        roots: &roots,
        ..one
    };
    check_gives(&rt, all, Ok(()))?;
    check_gives(&rt, Parts { start: 64, ..all }, Err((2, 0)))?;
    check_gives(
        &rt,
        Parts {
            roots: &roots[0..63],
            start: 62,
            ..all
        },
        Err((2, 0)),
    )?;
    check_gives(
        &rt,
        Parts {
            roots: &roots[0..63],
            start: 62,
            finals: u64::MAX >> 1,
            ..all
        },
        Ok(()),
    )
}

// A table of 64 roots, all 2 but the one at `place`, over three rows.
fn root_at(rt: &impl Abort, place: usize, root: u16, expected: Answer) -> Result<(), Fail> {
    let rows = [Row::default(); 3];
    let mut roots = [2; 64];
    if place < roots.len() {
        roots[place] = root;
    }
    let parts = Parts {
        signals: 0,
        start: 0,
        finals: 0,
        roots: &roots,
        rows: &rows,
    };
    check_gives(rt, parts, expected)
}

#[test]
fn roots(rt: HostRuntime) -> Result<(), Fail> {
    root_at(&rt, 0, 2, Ok(()))?;
    root_at(&rt, 0, 3, Err((3, 0)))?;
    root_at(&rt, 1, 65535, Err((3, 1)))?;
    root_at(&rt, 63, 3, Err((3, 63)))
}

// A table of 1,024 rows, all constant but the one at a place: first, second, in the middle, last.
fn row_at_each_place(rt: &impl Abort, row: Row, number: u8) -> Result<(), Fail> {
    let roots = [0; 2];
    for place in [0usize, 1, 511, 1023] {
        let mut rows = [Row::default(); 1024];
        if place < rows.len() {
            rows[place] = row;
        }
        let parts = Parts {
            signals: 3,
            start: 0,
            finals: 0,
            roots: &roots,
            rows: &rows,
        };
        check_gives(rt, parts, Err((number, place)))?;
    }
    Ok(())
}

#[test]
fn operations_and_unused_operands(rt: HostRuntime) -> Result<(), Fail> {
    row_at_each_place(&rt, at(7, 0, 0), 4)?;
    row_at_each_place(&rt, at(255, 0, 0), 4)?;
    row_at_each_place(&rt, at(Operation::False, 1, 0), 4)?;
    row_at_each_place(&rt, at(Operation::False, 0, 1), 4)?;
    row_at_each_place(&rt, at(Operation::True, 65535, 0), 4)?;
    row_at_each_place(&rt, at(Operation::True, 0, 65535), 4)?;
    row_at_each_place(&rt, at(Operation::State, 0, 1), 4)?;
    row_at_each_place(&rt, at(Operation::Signal, 0, 1), 4)?;
    row_at_each_place(&rt, at(Operation::Not, 0, 1), 4)
}

#[test]
fn operands(rt: HostRuntime) -> Result<(), Fail> {
    row_at_each_place(&rt, at(Operation::State, 2, 0), 5)?;
    row_at_each_place(&rt, at(Operation::Signal, 3, 0), 5)?;
    row_at_each_place(&rt, at(Operation::And, 1023, 0), 5)?;
    row_at_each_place(&rt, at(Operation::Or, 0, 1023), 5)?;
    row_at_each_place(&rt, at(Operation::Not, 1023, 0), 5)
}

// What these rows over two states and three signals give.
fn rows_give(rt: &impl Abort, rows: &[Row], expected: Answer) -> Result<(), Fail> {
    let roots = [0; 2];
    let parts = Parts {
        signals: 3,
        start: 0,
        finals: 0,
        roots: &roots,
        rows,
    };
    check_gives(rt, parts, expected)
}

#[test]
fn last_operands_that_pass(rt: HostRuntime) -> Result<(), Fail> {
    let zero = Row::default();
    rows_give(
        &rt,
        &[
            zero,
            at(Operation::And, 0, 0),
            at(Operation::Or, 1, 0),
            at(Operation::Not, 2, 0),
        ],
        Ok(()),
    )?;
    rows_give(
        &rt,
        &[at(Operation::State, 1, 0), at(Operation::Signal, 2, 0)],
        Ok(()),
    )?;
    rows_give(&rt, &[zero, at(Operation::And, 0, 1)], Err((5, 1)))?;
    rows_give(&rt, &[zero, at(Operation::Or, 1, 0)], Err((5, 1)))?;
    rows_give(&rt, &[zero, zero, at(Operation::Not, 2, 0)], Err((5, 2)))
}

#[test]
fn negations(rt: HostRuntime) -> Result<(), Fail> {
    let signal = at(Operation::Signal, 0, 0);
    let state = at(Operation::State, 0, 0);
    // over AND of a signal and an OR that is free of states
    rows_give(
        &rt,
        &[
            signal,
            at(Operation::Or, 0, 0),
            at(Operation::And, 0, 1),
            at(Operation::Not, 2, 0),
            at(Operation::Not, 3, 0),
        ],
        Ok(()),
    )?;
    // the same with a state at the bottom
    rows_give(
        &rt,
        &[
            signal,
            state,
            at(Operation::Or, 0, 1),
            at(Operation::And, 0, 2),
            at(Operation::Not, 3, 0),
        ],
        Err((6, 4)),
    )?;
    rows_give(
        &rt,
        &[
            signal,
            state,
            at(Operation::And, 1, 0),
            at(Operation::Not, 2, 0),
        ],
        Err((6, 3)),
    )?;
    rows_give(&rt, &[state, at(Operation::Not, 0, 0)], Err((6, 1)))?;
    rows_give(
        &rt,
        &[
            Row::default(),
            at(Operation::True, 0, 0),
            at(Operation::Or, 0, 1),
            at(Operation::Not, 2, 0),
        ],
        Ok(()),
    )
}

#[test]
fn last_negation(rt: HostRuntime) -> Result<(), Fail> {
    let mut rows = [Row::default(); 1024];
    rows[1022] = at(Operation::State, 0, 0);
    rows[1023] = at(Operation::Not, 1022, 0);
    rows_give(&rt, &rows, Err((6, 1023)))
}

#[test]
fn two_faults_in_rows(rt: HostRuntime) -> Result<(), Fail> {
    let unknown = at(9, 0, 0);
    let misplaced = at(Operation::And, 9, 9);
    let negation = at(Operation::Not, 0, 0);
    let state = at(Operation::State, 0, 0);
    // in one row 4 comes before 5, and 5 before 6
    rows_give(&rt, &[state, at(Operation::Not, 9, 9)], Err((4, 1)))?;
    rows_give(&rt, &[state, at(Operation::Not, 9, 0)], Err((5, 1)))?;
    // an earlier row comes before a later one, whatever is wrong with each
    rows_give(&rt, &[state, negation, misplaced, unknown], Err((6, 1)))?;
    rows_give(&rt, &[state, misplaced, unknown, negation], Err((5, 1)))?;
    rows_give(&rt, &[unknown, negation, misplaced], Err((4, 0)))
}

#[test]
fn two_faults_before_rows(rt: HostRuntime) -> Result<(), Fail> {
    let roots = [9; 65];
    let rows = [at(9, 0, 0)];
    // 1 before 2, 2 before 3, 3 before 4
    let parts = Parts {
        signals: 0,
        start: 200,
        finals: 0,
        roots: &roots[0..65],
        rows: &rows,
    };
    check_gives(&rt, parts, Err((1, 0)))?;
    check_gives(
        &rt,
        Parts {
            roots: &roots[0..2],
            ..parts
        },
        Err((2, 0)),
    )?;
    check_gives(
        &rt,
        Parts {
            roots: &roots[0..2],
            start: 0,
            ..parts
        },
        Err((3, 0)),
    )
}
