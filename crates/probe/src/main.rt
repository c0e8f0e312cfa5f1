// The text door of the proved calls on strips of words and on records by value: commands on standard input, one a line, and one line of
// answer each. The doors of the calls on lent records and on images are the programs probe_tables and probe_images.
//
//   lay DIVIDE WORDS                  number WORDS
//   find right|left WORDS             number place
//   measure WORDS                     number L orders R
//   start MAX RECORD OPERATION ORDER  number carried RECORD
//   withdraw MAX RECORD               number carried RECORD
//   step HINT RECORD WORDS            number carried RECORD WORDS
//
// Numbers are decimal, below 2^64 (ORDER below 2^32), with blanks between. A RECORD is six numbers: operation, stage, k, v, first and
// second, which fit its fields. WORDS are the words of a strip, up to 4,097. A line has up to 163,840 bytes. Any other line is answered
// `?`.
#![tactic(auto)]

mod calls;

use crate::calls::{find, lay, measure, start, step, withdraw};
use console::answer::{Outcome, Unanswered};
use console::input::answer_in_fixed_memory;
use console::line::Line;
use std::io;

fn find_from_a_side(rt: &impl Print, mut line: Line<'_>) -> Outcome {
    match line.field() {
        Some(b"right") => find(rt, line, find::find_right),
        Some(b"left") => find(rt, line, find::find_left),
        _ => Err(Unanswered::NoCall),
    }
}

fn answer(rt: &impl Print, mut line: Line<'_>) -> Outcome {
    match line.field() {
        Some(b"lay") => lay(rt, line),
        Some(b"find") => find_from_a_side(rt, line),
        Some(b"measure") => measure(rt, line),
        Some(b"start") => start(rt, line),
        Some(b"withdraw") => withdraw(rt, line),
        Some(b"step") => step(rt, line),
        _ => Err(Unanswered::NoCall),
    }
}

fn main(rt: HostRuntime) -> io::Result<()> {
    answer_in_fixed_memory(&rt, |line| answer(&rt, line))
}
