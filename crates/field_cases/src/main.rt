// The edges of lines and fields: each line of the input is a case, and is printed with its answer.
#![tactic(auto)]

use cases::{Answers, Case, answer_all};
use fields::field::Form;
use fields::walk::walk;
use picky::Picky;
use spelling::spelled;
use std::io;

mod picky;

fn main(rt: HostRuntime) -> anyhow::Result<()> {
    answer_all::<Walks>(&rt)
}

// Walks headers and reports.
struct Walks;

impl Answers for Walks {
    fn answer(case: Case) -> anyhow::Result<()> {
        match case.line.split_once(' ') {
            Some(("header", text)) => walked(case, Form::Header, text),
            Some(("report", text)) => walked(case, Form::Report, text),
            _ => Ok(case.print_line()?),
        }
    }
}

fn walked(case: Case, form: Form, text: &str) -> anyhow::Result<()> {
    let input = spelled(case.rt.alloc(), text)?;
    match walk(form, input.as_slice(), Picky { last: None }) {
        Ok(picky) => accepted(case, picky)?,
        Err(why) => case.print_refusal(why)?,
    }
    Ok(())
}

fn accepted(case: Case, picky: Picky) -> io::Result<()> {
    match picky.last {
        Some(last) => {
            let name = last.name.at;
            let body = last.body.at;
            let size = last.body.text.len();
            case.print(format_args!("last field at {name}, its body of {size} at {body}"))
        }
        None => case.print("no field"),
    }
}
