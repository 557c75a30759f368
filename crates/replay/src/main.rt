// Reads a pattern file from standard input and says whether its pattern accepts the events that the arguments give.
#![tactic(auto)]

ghost use Rattle.std.specs.Prelude.{◌≤◌, length, IfOk};
ghost use Rattle.replay.specs.declared.TheConstants.{INPUT};

use files::line::refused_line;
use files::matching::file_accepts;
use files::reading::MAX_FILE;
use patterns::questions::MAX_ROWS;
use patterns::row::Row;
use sets::{Event, MAX_STATES};
use std::io::Read;
use std::{env, io};

// One byte more than the longest file, so that a file that is too long is seen to be so.
const INPUT: u64 = MAX_FILE as u64 + 1;

fn main(rt: HostRuntime) -> anyhow::Result<()> {
    run(&rt)
}

fn run(rt: &HostRuntime) -> anyhow::Result<()> {
    let file = read_input(rt)?;
    let events = read_events(rt)?;
    let mut roots = [0u16; MAX_STATES];
    let mut rows = [Row::default(); MAX_ROWS];
    match file_accepts(&file, &events, &mut roots, &mut rows) {
        Ok(true) => println!(rt; "accepted")?,
        Ok(false) => println!(rt; "rejected")?,
        Err(fault) => {
            let line = refused_line(rt.alloc(), fault)?;
            println!(rt; "{line}")?
        }
    }
    Ok(())
}

// What standard input has, but no more of it than one byte more than the longest file has.
fn read_input(rt: &HostRuntime) -> io::Result<Vec<u8>>
    ensures { IfOk result (λ file. length file.items ≤ INPUT) }
{
    // Room for all of it at once, and never full: where input comes in packets, what a read has no room for is lost.
    let mut file = Vec::with_capacity(rt.alloc(), INPUT as usize + 1)?;
    rt.stdin().take(INPUT).read_to_end(&mut file)?;
    // Cuts nothing off: no clause says of standard input how much `take` leaves of it.
    file.truncate(INPUT as usize);
    Ok(file)
}

// The arguments as events, in decimal.
fn read_events(rt: &HostRuntime) -> anyhow::Result<Vec<Event>> {
    let mut events = Vec::new(rt.alloc());
    for word in env::args(rt)?.skip(1) {
        events.push(word.as_str().parse::<u16>()?)?;
    }
    Ok(events)
}
