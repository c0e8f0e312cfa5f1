// Bench mark M11: strips of 2, 3, 4,096 and 4,097 words: 1, taken, taken, 1. A right push with hint 1 takes its first step on each, and
// the step's number is written, one to a line.
#![tactic(auto)]

use party::Answered;
use record::Record;
use std::io;

// In fixed memory: the program has no heap, and so can't run out of it.
fn main(rt: HostRuntime) -> io::Result<()> {
    for words in [2, 3, 4096, 4097] {
        let mut strip = [0; 4097];
        let Answered { answer, rec: _ } = step::step(&mut strip[..words], Record::begun(0, 7), 1);
        println!(rt; "{}", party::number(answer))?;
    }
    Ok(())
}
