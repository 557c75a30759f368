// Searches worked out by hand.
use crate::calls::{blank, ended, find, granted, records, tallies, tally};
use crate::tables::{stuck, stuck_beside};
use checks::opening::open;
use checks::states::Progress;
use inspector::answers::Inspection;
use inspector::inspect;
use pattern_kinds::pattern::Single;
use patterns::examples::latch;
use patterns::parts::Parts;
use search::{Find, Tally, Verdict};
use sets::States;
use std::process::Abort;
use std::test::Fail;
use stores::list::ListStore;

// LATCH: back from the empty set event 1 leads to state 1, which covers the empty set, and back from there to both
// states. The empty set is still expanded once more before it is closed.
#[test]
fn latch_query_by_query(rt: HostRuntime) -> Result<(), Fail> {
    let kind = Single::new(latch().checked()?.seal());
    let rows = [find(0, 0, 0, 0), find(2, 0, 1, 1), find(3, 1, 1, 2)];
    let mut table = [blank(); 3];
    let mut room = [9; 3];
    let mut store = ListStore::new(&mut room);
    let mut progress = open(&kind, &mut table, &mut store)?;
    tallies(&rt, &progress, &kind, &table, tally(None, 1, 0, 0));
    records(&rt, &progress, &kind, &table, &rows[..1]);
    progress = granted(progress, &kind, &mut table, &mut store, 1)?;
    tallies(&rt, &progress, &kind, &table, tally(None, 2, 1, 0));
    records(&rt, &progress, &kind, &table, &rows[..2]);
    progress = granted(progress, &kind, &mut table, &mut store, 1)?;
    tallies(&rt, &progress, &kind, &table, tally(None, 2, 2, 1));
    records(&rt, &progress, &kind, &table, &rows[..2]);
    progress = granted(progress, &kind, &mut table, &mut store, 1)?;
    tallies(&rt, &progress, &kind, &table, matches());
    records(&rt, &progress, &kind, &table, &rows);
    Ok(())
}

// LATCH's tally at the end, where the table has rows enough.
fn matches() -> Tally {
    tally(Some(Verdict::Matches), 3, 3, 0)
}

// Sees that LATCH over three rows ends in MATCHES by these grants, or by the first of them, with the sequence 1, 1.
fn latch_by(rt: &impl Abort, grants: [u32; 3]) -> Result<(), Fail> {
    let kind = Single::new(latch().checked()?.seal());
    let mut table = [blank(); 3];
    let mut room = [9; 3];
    let mut store = ListStore::new(&mut room);
    let mut progress = open(&kind, &mut table, &mut store)?;
    for grant in grants {
        progress = granted(progress, &kind, &mut table, &mut store, grant)?;
    }
    tallies(rt, &progress, &kind, &table, matches());
    let Progress::Matched(end) = progress else {
        return Err(Fail::new("no MATCHES"));
    };
    let mut list = [7; 3];
    assert_eq!(rt; end.sequence(&kind, &table, &mut list), Ok(2));
    assert_eq!(rt; list, [1, 1, 7]);
    Ok(())
}

// However the queries are granted, the end is the same; a grant of more than are left makes no more than are left.
#[test]
fn grants_add_up(rt: HostRuntime) -> Result<(), Fail> {
    latch_by(&rt, [1, 1, 1])?;
    latch_by(&rt, [1, 2, 1])?;
    latch_by(&rt, [2, 1, 1])?;
    latch_by(&rt, [3, 1, 1])?;
    latch_by(&rt, [65_535, 1, 1])?;
    latch_by(&rt, [1, 65_535, 1])
}

// Sees that LATCH over this table has this tally at its end.
fn latch_over(
    rt: &impl Abort,
    table: &mut [Find<States>],
    room: &mut [States],
    tally: Tally,
) -> Result<(), Fail> {
    let kind = Single::new(latch().checked()?.seal());
    let mut store = ListStore::new(room);
    ended(rt, &kind, table, &mut store, tally)?;
    Ok(())
}

// FULL comes with the find that has no row, and not when the last row is taken.
#[test]
fn tables_may_be_full(rt: HostRuntime) -> Result<(), Fail> {
    let full = Some(Verdict::Full);
    let mut one = [blank(); 1];
    latch_over(&rt, &mut one, &mut [9; 1], tally(full, 1, 1, 0))?;
    let mut two = [blank(); 2];
    latch_over(&rt, &mut two, &mut [9; 2], tally(full, 2, 3, 1))?;
    let mut three = [blank(); 3];
    latch_over(&rt, &mut three, &mut [9; 4], matches())
}

// Sees that the pattern ends in NEVER with this tally, and that this set alone is its certificate, which passes.
fn never(
    rt: &impl Abort,
    parts: Parts,
    table: &mut [Find<States>],
    room: &mut [States],
    tally: Tally,
    held: States,
) -> Result<(), Fail> {
    let kind = Single::new(parts.checked()?.seal());
    let mut store = ListStore::new(room);
    let Progress::Never(end) = ended(rt, &kind, table, &mut store, tally)? else {
        return Err(Fail::new("no NEVER"));
    };
    let mut list = [7; 2];
    assert_eq!(rt; end.certificate(&kind, table, &store, &mut list), Ok(1));
    assert_eq!(rt; list, [held, 7]);
    assert_eq!(rt; inspect(&kind, &list[..1]), Ok(Inspection::Passed));
    Ok(())
}

// The certificate has what the store still holds: of the second pattern the empty set was recorded, and dropped when the
// set of state 1 came. There as many queries are made as a table of two rows allows.
#[test]
fn certificates_pass(rt: HostRuntime) -> Result<(), Fail> {
    let verdict = Some(Verdict::Never);
    let mut one = [blank(); 1];
    never(
        &rt,
        stuck(),
        &mut one,
        &mut [9; 1],
        tally(verdict, 1, 1, 0),
        0,
    )?;
    let mut two = [blank(); 2];
    never(
        &rt,
        stuck_beside(),
        &mut two,
        &mut [9; 2],
        tally(verdict, 2, 3, 0),
        2,
    )
}
