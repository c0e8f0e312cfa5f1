// Each command: its numbers and bytes are handed to the proved call, and what that answers and leaves is written.
// What ends the program is a write that fails.
use console::answer::Outcome;
use console::image::{Bytes, MOST_BYTES};
use console::line::Line;
use console::number::{Words, check_number};
use console::records::{MOST_RECORDS, Records};
use party::{Answer, carried, number};
use record::Record;
use refusal::Refusal;

// A strip may have one word fewer.
const MOST_WORDS: usize = 4097;

// Lends the line's image to a call, and writes number + 2^32 × carried order, and the bytes.
fn on_image<F>(rt: &impl Print, mut line: Line<'_>, call: F) -> Outcome
where
    F: FnOnce(&mut [u8]) -> Result<Answer, Refusal>,
    requires { F.IsAlwaysCallable call }
{
    let mut room = [0; MOST_BYTES];
    let count = line.bytes(&mut room)?;
    line.end()?;
    let image = &mut room[..count];
    let answer = call(image);
    let packed = u64::from(number(answer)) + u64::from(carried(answer)) * 4_294_967_296;
    print!(rt; "{packed}{}", Bytes(image))?;
    Ok(())
}

pub fn lay(rt: &impl Print, mut line: Line<'_>) -> Outcome {
    let parties = line.compared()?;
    let max = line.compared()?;
    let divide = line.compared()?;
    on_image(rt, line, |image| image::lay(image, max, parties, divide))
}

pub fn start(rt: &impl Print, mut line: Line<'_>) -> Outcome {
    let party = line.compared()?;
    let operation = line.compared()?;
    let order = line.order()?;
    on_image(
        rt,
        line,
        |image| image::start(image, party, operation, order),
    )
}

pub fn step(rt: &impl Print, mut line: Line<'_>) -> Outcome {
    let party = line.compared()?;
    let hint = line.compared()?;
    on_image(rt, line, |image| image::step(image, party, hint))
}

pub fn withdraw(rt: &impl Print, mut line: Line<'_>) -> Outcome {
    let party = line.compared()?;
    on_image(rt, line, |image| image::withdraw(image, party))
}

pub fn read(rt: &impl Print, mut line: Line<'_>) -> Outcome {
    let words = line.count(MOST_WORDS)?;
    let parties = line.count(MOST_RECORDS)?;
    let mut bytes = [0; MOST_BYTES];
    let count = line.bytes(&mut bytes)?;
    line.end()?;
    let (mut strip, mut table) = ([0; MOST_WORDS], [Record::idle(); MOST_RECORDS]);
    let (strip, table) = (&mut strip[..words], &mut table[..parties]);
    let number = check_number(whole::read(&bytes[..count], strip, table));
    print!(rt; "{number}{}{}", Words(strip), Records(table))?;
    Ok(())
}

pub fn write(rt: &impl Print, mut line: Line<'_>) -> Outcome {
    let words = line.count(MOST_WORDS)?;
    let mut strip = [0; MOST_WORDS];
    line.words(&mut strip[..words])?;
    let mut table = [Record::idle(); MOST_RECORDS];
    let parties = line.table(&mut table)?;
    let mut bytes = [0; MOST_BYTES];
    let count = line.bytes(&mut bytes)?;
    line.end()?;
    let image = &mut bytes[..count];
    let number = check_number(whole::write(image, &strip[..words], &table[..parties]));
    print!(rt; "{number}{}", Bytes(image))?;
    Ok(())
}
