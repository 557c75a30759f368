// What "B without A" accepts, and its tables.
use crate::making::*;
use pairs::tables::pair_tables;
use patterns::examples::latch;
use patterns::row::{Operation, Row};
use std::test::Fail;

#[test]
fn latch_without_latch(rt: HostRuntime) -> Result<(), Fail> {
    let mut roots = [7; 6];
    let mut rows = [Row::default(); 11];
    rows[10].left = 7;
    let later = checked(latch())?.seal();
    let heading = pair_tables(&later, &later, &mut roots, &mut rows).map_err(|_| Fail::new(
        "the pair is refused",
    ))?;
    assert_eq!(rt; heading.states, 5);
    assert_eq!(rt; heading.signals, 1);
    assert_eq!(rt; heading.start, 4);
    assert_eq!(rt; heading.rows, 10);
    assert_eq!(rt; heading.finals, 12);
    assert_eq!(rt; roots[2], 8);
    assert_eq!(rt; roots[4], 9);
    assert_eq!(rt; rows[4].operation, Operation::Not as u8);
    assert_eq!(rt; rows[8].operation, Operation::Or as u8);
    // what lies behind stays
    assert_eq!(rt; roots[5], 7);
    assert_eq!(rt; rows[10].left, 7);
    assert_eq!(rt; accepts(latch(), latch(), &[])?, false);
    assert_eq!(rt; accepts(latch(), latch(), &[1, 1])?, false);
    assert_eq!(rt; accepts(latch(), latch(), &[1, 0])?, false);
    Ok(())
}

// STUCK accepts nothing, so it takes nothing away and leaves nothing over.
#[test]
fn latch_and_stuck(rt: HostRuntime) -> Result<(), Fail> {
    assert_eq!(rt; accepts(latch(), stuck(), &[1, 1])?, true);
    assert_eq!(rt; accepts(latch(), stuck(), &[3, 1, 0])?, true);
    assert_eq!(rt; accepts(latch(), stuck(), &[1, 0])?, false);
    assert_eq!(rt; accepts(latch(), stuck(), &[])?, false);
    assert_eq!(rt; accepts(stuck(), latch(), &[1, 1])?, false);
    assert_eq!(rt; accepts(stuck(), latch(), &[1, 0])?, false);
    Ok(())
}

// The start of the pair is final where the later pattern's is and the earlier one's is not.
#[test]
fn empty_sequence(rt: HostRuntime) -> Result<(), Fail> {
    assert_eq!(rt; accepts(everything(), latch(), &[])?, true);
    assert_eq!(rt; accepts(everything(), latch(), &[1, 0])?, true);
    assert_eq!(rt; accepts(everything(), latch(), &[1, 1])?, false);
    assert_eq!(rt; accepts(everything(), everything(), &[])?, false);
    assert_eq!(rt; accepts(latch(), everything(), &[1, 1])?, false);
    Ok(())
}

// Either pattern may have more signals than the other.
#[test]
fn signal_counts(rt: HostRuntime) -> Result<(), Fail> {
    assert_eq!(rt; accepts(latch(), second_on(), &[1, 1])?, true);
    assert_eq!(rt; accepts(latch(), second_on(), &[3, 1])?, false);
    assert_eq!(rt; accepts(second_on(), latch(), &[2, 1])?, true);
    assert_eq!(rt; accepts(second_on(), latch(), &[3, 1])?, false);
    assert_eq!(rt; accepts(second_on(), latch(), &[3, 0])?, true);
    Ok(())
}
