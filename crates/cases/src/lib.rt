// Tables of cases: each line of the input is a case, and is printed with its answer.
#![tactic(auto)]

use fields::refusal::{Numbers, Refusal};
use std::{fmt, io};

// A case's line, and where its answer is printed.
#[derive(Clone, Copy)]
pub struct Case<'a> {
    pub rt: &'a HostRuntime,
    pub line: &'a str,
}

// How a table's cases are answered. It is no closure, since no public function requires anything, and one that calls a closure has to.
pub trait Answers {
    fn answer(case: Case) -> anyhow::Result<()>;
}

// Answers each line of the input, one after another.
pub fn answer_all<T: Answers>(rt: &HostRuntime) -> anyhow::Result<()> {
    for line in rt.lines(rt.alloc()) {
        let line = line?;
        T::answer(Case {
            rt,
            line: line.as_str(),
        })?;
    }
    Ok(())
}

impl Case<'_> {
    // Prints the line as it is.
    pub fn print_line(self) -> io::Result<()> {
        println!(self.rt; "{}", self.line)
    }

    // Prints the line with the answer behind it.
    pub fn print(self, answer: impl fmt::Display + Drop) -> io::Result<()> {
        println!(self.rt; "{}   {answer}", self.line)
    }

    // The tables have the numbers alone.
    pub fn print_refusal(self, why: Refusal) -> io::Result<()> {
        let Numbers {
            number,
            layer,
            field,
            byte,
        } = why.numbers();
        self.print(format_args!("[{number}, {layer}, {field}, {byte}]"))
    }
}
