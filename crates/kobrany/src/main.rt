// The program: it reads files by the library, and prints what was found.
#![tactic(auto)]

use anyhow::{Context, bail};
use std::env;
use std::env::Args;

mod facts;
mod show;

const USAGE: &str = "usage: kobrany fields FILE... or kobrany header FILE...";

fn main(rt: HostRuntime) -> anyhow::Result<()> {
    run(&rt)
}

fn run(rt: &HostRuntime) -> anyhow::Result<()> {
    let mut args = env::args(rt)?;
    let _program = args.next();
    let word = args.next().context(USAGE)?;
    match word.as_str() {
        "fields" => each(args, |file| show::fields(rt, file)),
        "header" => each(args, |file| facts::header(rt, file)),
        _ => bail!("{USAGE}"),
    }
}

// Answers for each file, of which one at least is named.
fn each<F: Fn(&str) -> anyhow::Result<()>>(mut files: Args, answer: F) -> anyhow::Result<()>
    requires { F.IsAlwaysCallable answer }
{
    let first = files.next().context(USAGE)?;
    answer(first.as_str())?;
    for more in files {
        answer(more.as_str())?;
    }
    Ok(())
}
