// Judges each of the pattern files that the arguments name, and prints their names and what is to be said of them.
#![tactic(auto)]

use judging::judgement;
use std::{env, fs};

fn main(rt: HostRuntime) -> anyhow::Result<()> {
    run(&rt)
}

fn run(rt: &HostRuntime) -> anyhow::Result<()> {
    for name in env::args(rt)?.skip(1) {
        let file = fs::read(rt, name.as_str())?;
        let text = judgement(rt.alloc(), &file)?;
        print!(rt; "case {name}\n{text}")?;
    }
    Ok(())
}
