// Each command: its numbers are handed to the proved call, and what that says and leaves is written.
// What ends the program is a write that fails.
use console::answer::Outcome;
use console::line::{Line, MOST_NUMBERS};
use console::number::Words;
use console::records::{MOST_RECORDS, Records};
use party::number;
use record::Record;
use table::Said;

// The number, the carried order and the records that were lent.
fn say(rt: &impl Print, said: Said, table: &[Record]) -> Outcome {
    print!(rt;
        "{} {}{}",
        number(said.answer),
        said.carried,
        Records(table)
    )?;
    Ok(())
}

pub fn start_record(rt: &impl Print, mut line: Line<'_>) -> Outcome {
    let max = line.compared()?;
    let mut rec = line.record()?;
    let operation = line.compared()?;
    let order = line.order()?;
    line.end()?;
    let said = table::start_record(max, &mut rec, operation, order);
    say(rt, said, &[rec])
}

pub fn withdraw_record(rt: &impl Print, mut line: Line<'_>) -> Outcome {
    let max = line.compared()?;
    let mut rec = line.record()?;
    line.end()?;
    let said = table::withdraw_record(max, &mut rec);
    say(rt, said, &[rec])
}

pub fn step_record(rt: &impl Print, mut line: Line<'_>) -> Outcome {
    let hint = line.compared()?;
    let mut rec = line.record()?;
    let mut room = [0; MOST_NUMBERS];
    let count = line.last_words(&mut room)?;
    let strip = &mut room[..count];
    let said = table::step_record(strip, &mut rec, hint);
    say(rt, said, &[rec])?;
    print!(rt; "{}", Words(strip))?;
    Ok(())
}

// Lends the line's table to a call.
fn on_table<F>(rt: &impl Print, mut line: Line<'_>, call: F) -> Outcome
where
    F: FnOnce(&mut [Record]) -> Said,
    requires { F.IsAlwaysCallable call }
{
    let mut room = [Record::idle(); MOST_RECORDS];
    let count = line.table(&mut room)?;
    line.end()?;
    let table = &mut room[..count];
    let said = call(table);
    say(rt, said, table)
}

pub fn start_in(rt: &impl Print, mut line: Line<'_>) -> Outcome {
    let max = line.compared()?;
    let party = line.compared()?;
    let operation = line.compared()?;
    let order = line.order()?;
    on_table(rt, line, |table| {
        table::start_in(max, table, party, operation, order)
    })
}

pub fn withdraw_in(rt: &impl Print, mut line: Line<'_>) -> Outcome {
    let max = line.compared()?;
    let party = line.compared()?;
    on_table(rt, line, |table| table::withdraw_in(max, table, party))
}

pub fn step_in(rt: &impl Print, mut line: Line<'_>) -> Outcome {
    let party = line.compared()?;
    let hint = line.compared()?;
    let mut records = [Record::idle(); MOST_RECORDS];
    let parties = line.table(&mut records)?;
    let mut words = [0; MOST_NUMBERS];
    let count = line.last_words(&mut words)?;
    let (table, strip) = (&mut records[..parties], &mut words[..count]);
    let said = table::step_in(strip, table, party, hint);
    say(rt, said, table)?;
    print!(rt; "{}", Words(strip))?;
    Ok(())
}
