// Writing: LATCH byte by byte, refusals, and the largest pattern written and read again.
use crate::making::*;
use files::reading::read_pattern;
use files::writing::write_pattern;
use patterns::examples::latch;
use patterns::parts::Parts;
use patterns::row::{Operation, Row};
use std::test::Fail;

#[test]
fn latch_is_written(rt: HostRuntime) -> Result<(), Fail> {
    let mut buffer = [9; 513];
    match write_pattern(latch(), &mut buffer) {
        Ok(len) => assert_eq!(rt; len, 512),
        Err(fault) => is(&rt, fault, 0, 0)?,
    }
    assert_eq!(rt; &buffer[..512], one_block(&LATCH).as_slice());
    assert_eq!(rt; buffer[512], 9);
    Ok(())
}

#[test]
fn a_short_buffer_is_untouched(rt: HostRuntime) -> Result<(), Fail> {
    let mut buffer = [9; 511];
    match write_pattern(latch(), &mut buffer) {
        Ok(_) => Err(Fail::new("the buffer was written"))?,
        Err(fault) => is(&rt, fault, 28, 0)?,
    }
    assert_eq!(rt; buffer[0], 9);
    assert_eq!(rt; buffer[510], 9);
    Ok(())
}

// The tables' questions come before the buffer's.
#[test]
fn two_faults(rt: HostRuntime) -> Result<(), Fail> {
    let mut none: [u8; 0] = [];
    match write_pattern(
        Parts {
            start: 9,
            ..latch()
        },
        &mut none,
    ) {
        Ok(_) => Err(Fail::new("the pattern was written"))?,
        Err(fault) => is(&rt, fault, 2, 0)?,
    }
    match write_pattern(latch(), &mut none) {
        Ok(_) => Err(Fail::new("the pattern was written")),
        Err(fault) => is(&rt, fault, 28, 0),
    }
}

// 64 states and 1,024 rows take 13 blocks: written, read again, and refused in a buffer one byte short.
#[test]
fn the_largest_pattern(rt: HostRuntime) -> Result<(), Fail> {
    let roots = [1023; 64];
    let mut rows = [Row {
        operation: Operation::Signal as u8,
        left: 15,
        right: 0,
    }; 1024];
    rows[1023] = Row {
        operation: Operation::And as u8,
        left: 1022,
        right: 1021,
    };
    let parts = Parts {
        signals: 16,
        start: 63,
        finals: u64::MAX,
        roots: &roots,
        rows: &rows,
    };
    let mut buffer = [0; 6656];
    match write_pattern(parts, &mut buffer[0..6655]) {
        Ok(_) => Err(Fail::new("a buffer one byte short was written"))?,
        Err(fault) => is(&rt, fault, 28, 0)?,
    }
    match write_pattern(parts, &mut buffer) {
        Ok(len) => assert_eq!(rt; len, 6656),
        Err(fault) => is(&rt, fault, 0, 0)?,
    }
    let mut roots_read = [0; 64];
    let mut rows_read = [Row::default(); 1024];
    match read_pattern(&buffer, &mut roots_read, &mut rows_read) {
        Ok(heading) => {
            assert_eq!(rt; heading.states, 64);
            assert_eq!(rt; heading.rows, 1024);
            assert_eq!(rt; heading.finals, u64::MAX);
        }
        Err(fault) => is(&rt, fault, 0, 0)?,
    }
    assert_eq!(rt; roots_read[63], 1023);
    assert_eq!(rt; rows_read[0].left, 15);
    assert_eq!(rt; rows_read[1023].right, 1021);
    Ok(())
}

#[test]
fn states_past_the_limit(rt: HostRuntime) -> Result<(), Fail> {
    let roots = [0; 65];
    let rows = [Row::default()];
    let mut buffer = [0; 512];
    let parts = Parts {
        signals: 0,
        start: 0,
        finals: 0,
        roots: &roots[0..64],
        rows: &rows,
    };
    match write_pattern(parts, &mut buffer) {
        Ok(len) => assert_eq!(rt; len, 512),
        Err(fault) => is(&rt, fault, 0, 0)?,
    }
    let parts = Parts {
        roots: &roots[0..65],
        ..parts
    };
    match write_pattern(parts, &mut buffer) {
        Ok(_) => Err(Fail::new("65 states were written")),
        Err(fault) => is(&rt, fault, 1, 0),
    }
}
