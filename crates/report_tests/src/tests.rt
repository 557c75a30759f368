// Whole reports: each verdict, with nothing behind the counts, with few lines, and with the largest numbers.
use reports::{Outcome, Report};
use std::test::Fail;

// LATCH with 1,024 rows.
#[test]
fn a_sequence_of_two_events(rt: HostRuntime) -> Result<(), Fail> {
    let text = Report {
        queries: 3,
        finds: 3,
        outcome: Outcome::Matches(&[1, 1]),
    }
    .to_string(rt.alloc())?;
    assert_eq!(rt;
        text.as_str(),
        "verdict MATCHES\nqueries 3\nfinds 3\nlength 2\nevent 1\nevent 1\n"
    );
    Ok(())
}

// A first configuration is a goal: no query, and the empty sequence.
#[test]
fn the_empty_sequence(rt: HostRuntime) -> Result<(), Fail> {
    let text = Report {
        queries: 0,
        finds: 1,
        outcome: Outcome::Matches(&[]),
    }
    .to_string(rt.alloc())?;
    assert_eq!(rt;
        text.as_str(),
        "verdict MATCHES\nqueries 0\nfinds 1\nlength 0\n"
    );
    Ok(())
}

#[test]
fn events_in_order_up_to_the_largest(rt: HostRuntime) -> Result<(), Fail> {
    let text = Report {
        queries: 131_072,
        finds: 4,
        outcome: Outcome::Matches(&[65_535, 0, 10]),
    }
    .to_string(rt.alloc())?;
    assert_eq!(rt;
        text.as_str(),
        "verdict MATCHES\nqueries 131072\nfinds 4\nlength 3\nevent 65535\nevent 0\nevent 10\n"
    );
    Ok(())
}

// A certificate has no length line.
#[test]
fn held_sets_in_order_up_to_the_largest(rt: HostRuntime) -> Result<(), Fail> {
    let text = Report {
        queries: 5,
        finds: 3,
        outcome: Outcome::Never(&[12, u64::MAX, 0]),
    }
    .to_string(rt.alloc())?;
    assert_eq!(rt;
        text.as_str(),
        "verdict NEVER\nqueries 5\nfinds 3\nheld 12\nheld 18446744073709551615\nheld 0\n"
    );
    Ok(())
}

#[test]
fn no_held_set(rt: HostRuntime) -> Result<(), Fail> {
    let text = Report {
        queries: 0,
        finds: 0,
        outcome: Outcome::Never(&[]),
    }
    .to_string(rt.alloc())?;
    assert_eq!(rt; text.as_str(), "verdict NEVER\nqueries 0\nfinds 0\n");
    Ok(())
}

// LATCH with 2 rows, then the largest numbers that there are.
#[test]
fn a_cleared_length(rt: HostRuntime) -> Result<(), Fail> {
    let text = Report {
        queries: 3,
        finds: 2,
        outcome: Outcome::Full(1),
    }
    .to_string(rt.alloc())?;
    assert_eq!(rt;
        text.as_str(),
        "verdict FULL\nqueries 3\nfinds 2\nlength 1\n"
    );
    let largest = Report {
        queries: usize::MAX,
        finds: usize::MAX,
        outcome: Outcome::Full(usize::MAX),
    }
    .to_string(rt.alloc())?;
    assert_eq!(rt;
        largest.as_str(),
        "verdict FULL\nqueries 18446744073709551615\nfinds 18446744073709551615\nlength 18446744073709551615\n"
    );
    Ok(())
}
