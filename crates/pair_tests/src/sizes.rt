// The refusals of two patterns, at their edges.
use crate::making::*;
use patterns::examples::latch;
use patterns::parts::Parts;
use patterns::row::Row;
use std::test::Fail;

fn plain<'a>(roots: &'a [u16], rows: &'a [Row]) -> Parts<'a> {
    Parts {
        signals: 0,
        start: 0,
        finals: 0,
        roots,
        rows,
    }
}

#[test]
fn states(rt: HostRuntime) -> Result<(), Fail> {
    let roots = [0; 32];
    let rows = [Row::default(); 1];
    assert_eq!(rt;
        refusal(plain(&roots[0..31], &rows), plain(&roots, &rows), 64, 1024)?,
        None
    );
    assert_eq!(rt;
        refusal(plain(&roots, &rows), plain(&roots, &rows), 64, 1024)?,
        Some(31)
    );
    Ok(())
}

#[test]
fn rows(rt: HostRuntime) -> Result<(), Fail> {
    let roots = [0; 1];
    let rows = [Row::default(); 511];
    assert_eq!(rt;
        refusal(plain(&roots, &rows[0..1]), plain(&roots, &rows), 64, 1024)?,
        None
    );
    assert_eq!(rt;
        refusal(plain(&roots, &rows[0..2]), plain(&roots, &rows), 64, 1024)?,
        Some(32)
    );
    Ok(())
}

// The states are asked first, then the rows, then the tables.
#[test]
fn order(rt: HostRuntime) -> Result<(), Fail> {
    let roots = [0; 32];
    let rows = [Row::default(); 512];
    assert_eq!(rt;
        refusal(plain(&roots, &rows), plain(&roots, &rows), 0, 0)?,
        Some(31)
    );
    assert_eq!(rt;
        refusal(plain(&roots[0..1], &rows), plain(&roots, &rows), 0, 0)?,
        Some(32)
    );
    Ok(())
}

#[test]
fn room(rt: HostRuntime) -> Result<(), Fail> {
    assert_eq!(rt; refusal(latch(), latch(), 5, 10)?, None);
    assert_eq!(rt; refusal(latch(), latch(), 4, 10)?, Some(33));
    assert_eq!(rt; refusal(latch(), latch(), 5, 9)?, Some(33));
    Ok(())
}
