// Reads a pattern file from standard input and prints what the search makes of its pattern, or why it is refused.
#![tactic(auto)]

ghost use Rattle.std.specs.Prelude.{◌≤◌, length, IfOk};
ghost use Rattle.judge.specs.declared.TheConstants.{INPUT};

use files::reading::MAX_FILE;
use judging::judgement;
use std::io::Read;

// One byte more than the longest file, so that a file that is too long is seen to be so.
const INPUT: u64 = MAX_FILE as u64 + 1;

fn main(rt: HostRuntime) -> anyhow::Result<()> {
    run(&rt)
}

fn run(rt: &HostRuntime) -> anyhow::Result<()> {
    let file = read_input(rt)?;
    let text = judgement(rt.alloc(), &file)?;
    print!(rt; "{text}")?;
    Ok(())
}

// What standard input has, but no more of it than one byte more than the longest file has.
fn read_input(rt: &HostRuntime) -> anyhow::Result<Vec<u8>>
    ensures { IfOk result (λ file. length file.items ≤ INPUT) }
{
    // Room for all of it at once, and never full: where input comes in packets, what a read has no room for is lost.
    let mut file = Vec::with_capacity(rt.alloc(), INPUT as usize + 1)?;
    rt.stdin().take(INPUT).read_to_end(&mut file)?;
    // Cuts nothing off: no clause says of standard input how much `take` leaves of it.
    file.truncate(INPUT as usize);
    Ok(file)
}
