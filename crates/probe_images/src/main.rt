// The text door of the proved calls on images and on whole images: commands on standard input, one a line, and one line of answer each.
// The doors of the calls on strips and records are the programs probe and probe_tables.
//
//   image-lay PARTIES MAX DIVIDE HEX  packed HEX
//   image-start PARTY OPERATION ORDER HEX
//                                     packed HEX
//   image-step PARTY HINT HEX         packed HEX
//   image-withdraw PARTY HEX          packed HEX
//   read N PARTIES HEX                number, N WORDS, PARTIES RECORDs
//   write N WORDS PARTIES RECORDs HEX number HEX
//
// Numbers are decimal, below 2^64 (ORDER below 2^32), with blanks between. A RECORD is six numbers: operation, stage, k, v, first and
// second, which fit its fields. WORDS are the words of a strip, up to 4,097; a table has up to 17 RECORDs. HEX is the bytes of an image,
// up to 33,792, two digits each, `-` for none; packed is number + 2^32 × carried order. `read` is lent N words and PARTIES records, all
// zero, and `write` the bytes given. A line has up to 163,840 bytes. Any other line is answered `?`.
#![tactic(auto)]

mod calls;

use crate::calls::{lay, read, start, step, withdraw, write};
use console::answer::{Outcome, Unanswered};
use console::input::answer_in_fixed_memory;
use console::line::Line;
use std::io;

fn answer(rt: &impl Print, mut line: Line<'_>) -> Outcome {
    match line.field() {
        Some(b"image-lay") => lay(rt, line),
        Some(b"image-start") => start(rt, line),
        Some(b"image-step") => step(rt, line),
        Some(b"image-withdraw") => withdraw(rt, line),
        Some(b"read") => read(rt, line),
        Some(b"write") => write(rt, line),
        _ => Err(Unanswered::NoCall),
    }
}

fn main(rt: HostRuntime) -> io::Result<()> {
    answer_in_fixed_memory(&rt, |line| answer(&rt, line))
}
