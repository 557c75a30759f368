// Reading: LATCH, each refusal, two faults at once, tables that are long enough and one short.
use crate::making::*;
use files::matching::file_accepts;
use files::reading::read_pattern;
use patterns::row::Row;
use std::process::Abort;
use std::test::Fail;

#[test]
fn latch(rt: HostRuntime) -> Result<(), Fail> {
    let file = one_block(&LATCH);
    assert_eq!(rt; file[2], 38);
    assert_eq!(rt; file[508] as u32 + 256 * file[509] as u32, 566);
    let mut roots = [7; 3];
    let mut rows = [Row::default(); 4];
    match read_pattern(&file, &mut roots, &mut rows) {
        Ok(heading) => {
            assert_eq!(rt; heading.states, 2);
            assert_eq!(rt; heading.signals, 1);
            assert_eq!(rt; heading.start, 0);
            assert_eq!(rt; heading.rows, 3);
            assert_eq!(rt; heading.finals, 0);
        }
        Err(fault) => is(&rt, fault, 0, 0)?,
    }
    // what lies behind the pattern is as it was
    assert_eq!(rt; roots[0], 2);
    assert_eq!(rt; roots[1], 0);
    assert_eq!(rt; roots[2], 7);
    assert_eq!(rt; rows[2].operation, 4);
    assert_eq!(rt; rows[2].right, 1);
    assert_eq!(rt; rows[3].operation, 0);
    Ok(())
}

#[test]
fn accepts(rt: HostRuntime) -> Result<(), Fail> {
    let file = one_block(&LATCH);
    let mut roots = [7; 2];
    let mut rows = [Row::default(); 3];
    match file_accepts(&file, &[3, 1, 0], &mut roots, &mut rows) {
        Ok(answer) => assert!(rt; answer),
        Err(fault) => is(&rt, fault, 0, 0)?,
    }
    match file_accepts(&file, &[1, 0], &mut roots, &mut rows) {
        Ok(answer) => {
            assert!(rt; !answer);
            Ok(())
        },
        Err(fault) => is(&rt, fault, 0, 0),
    }
}

// Tables one short are refused under 27 and stay as they were.
fn room(rt: &impl Abort, roots: usize, rows: usize, number: u8) -> Result<(), Fail> {
    let file = one_block(&LATCH);
    let mut all_roots = [7; 4];
    let mut all_rows = [Row::default(); 4];
    if roots > 4 || rows > 4 {
        return Err(Fail::new("tables of four at most"));
    }
    match read_pattern(&file, &mut all_roots[0..roots], &mut all_rows[0..rows]) {
        Ok(_) => {
            assert_eq!(rt; number, 0);
            Ok(())
        },
        Err(fault) => {
            is(rt, fault, number, 0)?;
            assert_eq!(rt; all_roots[0], 7);
            assert_eq!(rt; all_rows[0].operation, 0);
            Ok(())
        }
    }
}

#[test]
fn tables(rt: HostRuntime) -> Result<(), Fail> {
    room(&rt, 2, 3, 0)?;
    room(&rt, 4, 4, 0)?;
    room(&rt, 1, 3, 27)?;
    room(&rt, 2, 2, 27)?;
    room(&rt, 0, 0, 27)
}

#[test]
fn blocks(rt: HostRuntime) -> Result<(), Fail> {
    let file = one_block(&LATCH);
    refused(&rt, &file[0..0], 20, 0)?;
    refused(&rt, &file[0..511], 20, 511)?;
    let mut damaged = file;
    damaged[20] = 9;
    refused(&rt, &damaged, 21, 0)?;
    damaged = file;
    damaged[508] = 0;
    refused(&rt, &damaged, 21, 0)?;
    // a wrong number, used count and unused byte, each with the check put right
    damaged = file;
    damaged[0] = 1;
    seal(&mut damaged);
    refused(&rt, &damaged, 22, 0)?;
    damaged = file;
    damaged[2] = 0;
    seal(&mut damaged);
    refused(&rt, &damaged, 23, 0)?;
    damaged = file;
    damaged[507] = 1;
    seal(&mut damaged);
    refused(&rt, &damaged, 24, 0)
}

#[test]
fn record(rt: HostRuntime) -> Result<(), Fail> {
    refused(&rt, &one_block(&LATCH[0..15]), 25, 0)?;
    refused(&rt, &latch_with(0, 2), 25, 0)?;
    refused(&rt, &latch_with(0, 0), 25, 0)?;
    refused(&rt, &latch_with(14, 1), 25, 0)?;
    refused(&rt, &latch_with(15, 1), 25, 0)?;
    refused(&rt, &one_block(&LATCH[0..16]), 26, 0)?;
    refused(&rt, &one_block(&LATCH[0..37]), 26, 0)?;
    refused(&rt, &latch_with(1, 3), 26, 0)?;
    refused(&rt, &latch_with(4, 2), 26, 0)?;
    refused(&rt, &latch_with(5, 1), 26, 0)
}

#[test]
fn table_questions(rt: HostRuntime) -> Result<(), Fail> {
    // signals, start, finals
    refused(&rt, &latch_with(2, 17), 1, 0)?;
    refused(&rt, &latch_with(3, 2), 2, 0)?;
    refused(&rt, &latch_with(6, 4), 2, 0)?;
    refused(&rt, &latch_with(13, 128), 2, 0)?;
    // roots
    refused(&rt, &latch_with(16, 3), 3, 0)?;
    refused(&rt, &latch_with(19, 1), 3, 1)?;
    // operation, zero byte, unused operand
    refused(&rt, &latch_with(20, 7), 4, 0)?;
    refused(&rt, &latch_with(21, 1), 4, 0)?;
    refused(&rt, &latch_with(33, 255), 4, 2)?;
    refused(&rt, &latch_with(25, 1), 4, 0)?;
    // signal, state, own row
    refused(&rt, &latch_with(22, 1), 5, 0)?;
    refused(&rt, &latch_with(28, 2), 5, 1)?;
    refused(&rt, &latch_with(34, 2), 5, 2)
}

#[test]
fn negation(rt: HostRuntime) -> Result<(), Fail> {
    let mut payload = LATCH;
    payload[32] = 6;
    payload[34] = 1;
    payload[36] = 0;
    refused(&rt, &one_block(&payload), 6, 2)
}

#[test]
fn two_faults(rt: HostRuntime) -> Result<(), Fail> {
    // the check comes before the number
    let mut file = one_block(&LATCH);
    file[0] = 1;
    refused(&rt, &file, 21, 0)?;
    // the blocks before the record
    let mut damaged = latch_with(0, 2);
    damaged[20] = 9;
    refused(&rt, &damaged, 21, 0)?;
    // the heading before the length, the length before the tables
    let mut payload = LATCH;
    payload[0] = 9;
    payload[1] = 3;
    refused(&rt, &one_block(&payload), 25, 0)?;
    payload[0] = 1;
    payload[2] = 17;
    refused(&rt, &one_block(&payload), 26, 0)?;
    // the tables before their room
    let mut roots = [7; 1];
    let mut rows = [Row::default(); 1];
    match read_pattern(&latch_with(3, 9), &mut roots, &mut rows) {
        Ok(_) => Err(Fail::new("the file was read")),
        Err(fault) => is(&rt, fault, 2, 0),
    }
}
