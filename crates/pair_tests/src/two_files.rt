// The refusals of two files, each with more than one cause at once.
use files::writing::write_pattern;
use pairs::fault::FilesFault;
use pairs::reading::pair_files;
use patterns::examples::latch;
use patterns::parts::Parts;
use patterns::questions::MAX_ROWS;
use patterns::row::Row;
use sets::MAX_STATES;
use std::test::Fail;

fn written(parts: Parts, file: &mut [u8; 512]) -> Result<(), Fail> {
    write_pattern(parts, file).map_err(|_| Fail::new("the file was not written"))?;
    Ok(())
}

// The number of the refusal, if there is one, and that of the file's own fault in it, in tables of so many roots.
fn refusal(later: &[u8], earlier: &[u8], roots: usize) -> Option<(u8, Option<u8>)> {
    let mut root_table = [0; MAX_STATES];
    let mut row_table = [Row::default(); MAX_ROWS];
    let fault = pair_files(
        later,
        earlier,
        &mut root_table[..roots.min(MAX_STATES)],
        &mut row_table,
    )
    .err()?;
    let cause = match fault {
        FilesFault::Earlier(cause) | FilesFault::Later(cause) => Some(cause.number()),
        FilesFault::Pair(_) => None,
    };
    Some((fault.number(), cause))
}

#[test]
fn the_earlier_file_is_asked_first(rt: HostRuntime) -> Result<(), Fail> {
    let mut file = [0; 512];
    written(latch(), &mut file)?;
    let mut bad = file;
    bad[4] = 2;
    assert_eq!(rt; refusal(&file, &file, 5), None);
    assert_eq!(rt; refusal(&bad, &bad[0..511], 0), Some((29, Some(20))));
    assert_eq!(rt; refusal(&bad[0..511], &bad, 0), Some((29, Some(21))));
    assert_eq!(rt; refusal(&bad, &file, 0), Some((30, Some(21))));
    assert_eq!(rt; refusal(&file, &file, 4), Some((33, None)));
    Ok(())
}

#[test]
fn too_large_together(rt: HostRuntime) -> Result<(), Fail> {
    let roots = [0; 32];
    let rows = [Row::default(); 1];
    let mut file = [0; 512];
    written(
        Parts {
            signals: 0,
            start: 0,
            finals: 0,
            roots: &roots,
            rows: &rows,
        },
        &mut file,
    )?;
    assert_eq!(rt; refusal(&file, &file, 0), Some((31, None)));
    assert_eq!(rt; refusal(&[], &file, 0), Some((30, Some(20))));
    Ok(())
}
