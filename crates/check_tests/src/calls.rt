// What the tests have in common: making a call, and holding its answer to what it should be.
use checks::advancing::MAX_GRANT;
use checks::opening::open;
use checks::states::Progress;
use kinds::{Kind, Move};
use search::{Find, Tally, Verdict};
use sets::States;
use std::fmt::Debug;
use std::process::Abort;
use std::test::Fail;
use stores::Store;

// The check after a grant that is not refused; a check with a verdict is given back as it is.
pub(crate) fn granted<K: Kind, S: Store<K>>(
    progress: Progress,
    kind: &K,
    table: &mut [Find<K::Config>],
    store: &mut S,
    grant: u32,
) -> Result<Progress, Fail> {
    match progress {
        Progress::Running(running) => match running.advance(kind, table, store, grant) {
            Ok(next) => Ok(next),
            Err((_, refused)) => Err(Fail::new(format_args!("advance by {grant}: {refused:?}"))),
        },
        ended => Ok(ended),
    }
}

// The end of a check of this kind over this table and store, after seeing that it has this tally.
pub(crate) fn ended<K: Kind, S: Store<K>>(
    rt: &impl Abort,
    kind: &K,
    table: &mut [Find<K::Config>],
    store: &mut S,
    tally: Tally,
) -> Result<Progress, Fail> {
    let opened = open(kind, table, store)?;
    let end = granted(opened, kind, table, store, MAX_GRANT)?;
    tallies(rt, &end, kind, table, tally);
    Ok(end)
}

// Sees that the check is tallied so, and so again.
pub(crate) fn tallies<K: Kind>(
    rt: &impl Abort,
    progress: &Progress,
    kind: &K,
    table: &[Find<K::Config>],
    tally: Tally,
) {
    assert_eq!(rt; progress.tally(kind, table), Ok(tally));
    assert_eq!(rt; progress.tally(kind, table), Ok(tally));
}

// Sees that exactly these rows are recorded.
pub(crate) fn records<K: Kind>(
    rt: &impl Abort,
    progress: &Progress,
    kind: &K,
    table: &[Find<K::Config>],
    rows: &[Find<K::Config>],
)
where
    K::Config: PartialEq + Debug,
{
    for (i, row) in rows.iter().enumerate() {
        assert_eq!(rt; progress.look(kind, table, i), Ok(*row), "row {i}");
    }
    for row in [rows.len(), usize::MAX] {
        refuses_look(rt, progress, kind, table, row, 13);
    }
}

// Sees that looking at the row is refused under this number.
pub(crate) fn refuses_look<K: Kind>(
    rt: &impl Abort,
    progress: &Progress,
    kind: &K,
    table: &[Find<K::Config>],
    row: usize,
    number: u8,
)
where
    K::Config: PartialEq + Debug,
{
    let refusal = progress
        .look(kind, table, row)
        .map_err(|refused| (refused.number(), refused.place()));
    assert_eq!(rt; refusal, Err((number, 0)), "row {row}");
}

// A tally of a check that recorded one first configuration.
pub(crate) fn tally(
    verdict: Option<Verdict>,
    finds: usize,
    queries: usize,
    cleared: usize,
) -> Tally {
    Tally {
        verdict,
        finds,
        starts: 1,
        queries,
        cleared,
    }
}

// A row of the table for a pattern by itself.
pub(crate) fn find(configuration: States, origin: usize, via: Move, length: usize) -> Find<States> {
    Find {
        configuration,
        origin,
        via,
        length,
    }
}

// A row that no search of these tests records.
pub(crate) fn blank() -> Find<States> {
    find(9, 9, 9, 9)
}
