// What headers say: each line of the input is a case, and is printed with its answer.
#![tactic(auto)]

use anyhow::Context;
use cases::{Answers, Case, answer_all};
use fields::part::Part;
use fields::refusal::Refusal;
use header::facts::{Facts, read_header, read_header_at};
use spelling::spelled;
use std::{fmt, io};

fn main(rt: HostRuntime) -> anyhow::Result<()> {
    answer_all::<Headers>(&rt)
}

// Reads headers, alone or in a spool.
struct Headers;

impl Answers for Headers {
    fn answer(case: Case) -> anyhow::Result<()> {
        match case.line.split_once(' ') {
            Some(("header", text)) => whole(case, text),
            Some(("at", place)) => inside(case, place),
            _ => Ok(case.print_line()?),
        }
    }
}

// A case whose bytes are the header.
fn whole(case: Case, text: &str) -> anyhow::Result<()> {
    let input = spelled(case.rt.alloc(), text)?;
    print(case, read_header(input.as_slice()))?;
    Ok(())
}

// A case whose bytes are the spool: before them stand the header's first byte and its size.
fn inside(case: Case, place: &str) -> anyhow::Result<()> {
    let (start, place) = place.split_once(' ').context("a case without a size")?;
    let (size, text) = place.split_once(' ').context("a case without a spool")?;
    let spool = spelled(case.rt.alloc(), text)?;
    let start = start.parse::<usize>()?;
    let size = size.parse::<usize>()?;
    print(case, read_header_at(spool.as_slice(), start, size))?;
    Ok(())
}

fn print(case: Case, read: Result<Facts, Refusal>) -> io::Result<()> {
    match read {
        Ok(facts) => case.print(Accepted { facts }),
        Err(why) => case.print_refusal(why),
    }
}

// Prints each fact that holds, behind a comma.
#[derive(Clone, Copy)]
struct Accepted<'a> {
    facts: Facts<'a>,
}

impl fmt::Display for Accepted<'_> {
    fn fmt<W: fmt::Write>(&self, f: &mut fmt::Formatter<W>) -> fmt::Result {
        let facts = self.facts;
        let asks = word(facts.asks, ", asks");
        let agrees = word(facts.agrees, ", agrees");
        let required = word(facts.required, ", required");
        let notification = word(facts.notification, ", notification");
        write!(f, "accepted{asks}{agrees}{required}{notification}")?;
        if facts.distinct > 0 {
            write!(f, ", distinct {}", facts.distinct)?;
        }
        if let Some(recipient) = facts.original_recipient {
            told(f, ", recipient", recipient.kind)?;
            told(f, "", recipient.text)?;
        }
        if let Some(id) = facts.message_id {
            told(f, ", id", id)?;
        }
        Ok(())
    }
}

// The word for a fact that holds: a bool prints itself as true or false.
fn word(holds: bool, word: &'static str) -> &'static str {
    if holds { word } else { "" }
}

// A part's place and size.
fn told<W: fmt::Write>(f: &mut fmt::Formatter<W>, what: &str, part: Part) -> fmt::Result {
    write!(f, "{what} {}+{}", part.at, part.text.len())
}
