// Reads two pattern files and writes the file of the pattern that accepts what the first accepts and the second does not.
#![tactic(auto)]

ghost use Rattle.std.specs.Prelude.{◌≡◌, ◌≤◌, length, take, IfOk, IfSome};
ghost use Rattle.without.specs.declared.TheConstants.{INPUT};

use anyhow::{Context, bail};
use files::reading::MAX_FILE;
use files::writing::write_pattern;
use pairs::line::pair_line;
use pairs::reading::pair_files;
use patterns::questions::MAX_ROWS;
use patterns::row::Row;
use sets::MAX_STATES;
use std::alloc::Global;
use std::fs::File;
use std::io::Read;
use std::{env, fs, io};

// One byte more than the longest file, so that a file that is too long is seen to be so.
const INPUT: u64 = MAX_FILE as u64 + 1;

fn main(rt: HostRuntime) -> anyhow::Result<()> {
    run(&rt)
}

// The arguments are the paths of the later entry's file, the earlier entry's, and the one to write.
fn run(rt: &HostRuntime) -> anyhow::Result<()> {
    let mut words = env::args(rt)?.skip(1);
    let later = words.next().context("the later entry's file is missing")?;
    let earlier = words.next().context("the earlier entry's file is missing")?;
    let target = words.next().context("the file to write is missing")?;
    write_pair(rt, later.as_str(), earlier.as_str(), target.as_str())
}

// Writes the pair's file and says how large it is, or prints the refusal and writes nothing.
fn write_pair(rt: &HostRuntime, later: &str, earlier: &str, target: &str) -> anyhow::Result<()> {
    let later_file = read_front(rt.alloc(), File::open(rt, later)?)?;
    let earlier_file = read_front(rt.alloc(), File::open(rt, earlier)?)?;
    let mut roots = [0u16; MAX_STATES];
    let mut rows = [Row::default(); MAX_ROWS];
    match pair_files(&later_file, &earlier_file, &mut roots, &mut rows) {
        Ok(heading) => {
            let mut buffer = [0u8; MAX_FILE];
            let Ok(len) = write_pattern(heading.parts(&roots, &rows), &mut buffer) else {
                bail!("the pattern does not fit a file");
            };
            fs::write(rt, target, &buffer[..len])?;
            let states = heading.states;
            let signals = heading.signals;
            let count = heading.rows;
            println!(rt; "wrote {len} bytes: {states} states, {signals} signals, {count} rows")?
        }
        Err(fault) => {
            let line = pair_line(rt.alloc(), fault)?;
            println!(rt; "{line}")?
        }
    }
    Ok(())
}

// What the reader has left, but no more of it than one byte more than the longest file has.
fn read_front<R: Read + Drop>(heap: Global, reader: R) -> io::Result<Vec<u8>>
    ensures items { IfOk result (λ v. IfSome (R.remaining reader) (λ bytes. v.items ≡ take INPUT bytes)) }
    ensures len { IfOk result (λ v. length v.items ≤ INPUT) }
{
    // Room for all of it at once, and never full: where input comes in packets, what a read has no room for is lost.
    let mut front = Vec::with_capacity(heap, INPUT as usize + 1)?;
    reader.take(INPUT).read_to_end(&mut front)?;
    // Cuts nothing off: no clause says of a file how much `take` leaves of it.
    front.truncate(INPUT as usize);
    Ok(front)
}
