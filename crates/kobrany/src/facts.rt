// What `kobrany header` prints: one fact a line.
use fields::part::Part;
use fields::refusal::Refusal;
use header::facts::{Facts, read_header};
use std::{fs, io};

// The facts of a header, or the refusal. Either is an answer: only what cannot be read is an error.
pub fn header(rt: &HostRuntime, file: &str) -> anyhow::Result<()> {
    let input = fs::read(rt, file)?;
    println!(rt; "file: {file}")?;
    match read_header(input.as_slice()) {
        Ok(facts) => print_facts(rt, facts)?,
        Err(why) => print_refusal(rt, why)?,
    }
    Ok(())
}

// A fact as yes or no: a bool prints itself as true or false.
fn yes(fact: bool) -> &'static str {
    if fact { "yes" } else { "no" }
}

fn print_facts(rt: &HostRuntime, facts: Facts) -> io::Result<()> {
    println!(rt; "asks: {}", yes(facts.asks))?;
    println!(rt; "notification: {}", yes(facts.notification))?;
    println!(rt; "required: {}", yes(facts.required))?;
    println!(rt; "distinct: {}", facts.distinct)?;
    println!(rt; "agrees: {}", yes(facts.agrees))?;
    if let Some(recipient) = facts.original_recipient {
        print_part(rt, "original-recipient-type", recipient.kind)?;
        print_part(rt, "original-recipient", recipient.text)?;
    }
    if let Some(id) = facts.message_id {
        print_part(rt, "message-id", id)?;
    }
    Ok(())
}

// A part with its place and length, and its text if that has visible bytes and spaces alone.
fn print_part(rt: &HostRuntime, name: &str, part: Part) -> io::Result<()> {
    let at = part.at;
    let size = part.text.len();
    match visible(part.text) {
        Some(text) => println!(rt; "{name}: byte {at} length {size} text {text}"),
        None => println!(rt; "{name}: byte {at} length {size}"),
    }
}

fn visible(text: &[u8]) -> Option<&str> {
    let text = std::str::from_utf8(text).ok()?;
    text.bytes()
        .all(|b| matches!(b, b' '..=b'~'))
        .then_some(text)
}

fn print_refusal(rt: &HostRuntime, why: Refusal) -> io::Result<()> {
    println!(rt; "refused: {}", why.numbers())?;
    println!(rt; "because: {why}")
}
