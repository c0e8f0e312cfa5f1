// The text door of the proved calls on lent records: commands on standard input, one a line, and one line of answer each. The door of the
// calls on strips and on records by value is the program probe.
//
//   start-record MAX RECORD OPERATION ORDER         number carried RECORD
//   withdraw-record MAX RECORD                      number carried RECORD
//   step-record HINT RECORD WORDS                   number carried RECORD WORDS
//   start-in MAX PARTY OPERATION ORDER N RECORDs    number carried RECORDs
//   withdraw-in MAX PARTY N RECORDs                 number carried RECORDs
//   step-in PARTY HINT N RECORDs WORDS              number carried RECORDs WORDS
//
// Numbers are decimal, below 2^64 (ORDER below 2^32), with blanks between. A RECORD is six numbers: operation, stage, k, v, first and
// second, which fit its fields. N counts the RECORDs of the lent table, up to 17. WORDS are the words of a strip, up to 4,097. A line has
// up to 163,840 bytes. Any other line is answered `?`.
#![tactic(auto)]

mod calls;

use crate::calls::{start_in, start_record, step_in, step_record, withdraw_in, withdraw_record};
use console::answer::{Outcome, Unanswered};
use console::input::answer_in_fixed_memory;
use console::line::Line;
use std::io;

fn answer(rt: &impl Print, mut line: Line<'_>) -> Outcome {
    match line.field() {
        Some(b"start-record") => start_record(rt, line),
        Some(b"withdraw-record") => withdraw_record(rt, line),
        Some(b"step-record") => step_record(rt, line),
        Some(b"start-in") => start_in(rt, line),
        Some(b"withdraw-in") => withdraw_in(rt, line),
        Some(b"step-in") => step_in(rt, line),
        _ => Err(Unanswered::NoCall),
    }
}

fn main(rt: HostRuntime) -> io::Result<()> {
    answer_in_fixed_memory(&rt, |line| answer(&rt, line))
}
