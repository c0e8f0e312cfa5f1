// Each command: its numbers are handed to the proved call, and what that gives is written.
// What ends the program is a write that fails.
use console::answer::Outcome;
use console::line::{Line, MOST_NUMBERS};
use console::number::{Words, check_number};
use console::records::Records;
use party::{Answered, carried, number};
use refusal::Refusal;

// The number, the carried order and the record.
fn say(rt: &impl Print, got: Answered) -> Outcome {
    let Answered { answer, rec } = got;
    print!(rt; "{} {}{}", number(answer), carried(answer), Records(&[rec]))?;
    Ok(())
}

pub fn lay(rt: &impl Print, mut line: Line<'_>) -> Outcome {
    let divide = line.compared()?;
    let mut room = [0; MOST_NUMBERS];
    let count = line.last_words(&mut room)?;
    let strip = &mut room[..count];
    let number = check_number(strip::lay(strip, divide));
    print!(rt; "{number}{}", Words(strip))?;
    Ok(())
}

// From the right, or from the left.
pub fn find<F>(rt: &impl Print, mut line: Line<'_>, from_a_side: F) -> Outcome
where
    F: Fn(&[u64]) -> Result<u32, Refusal>,
    requires { F.IsAlwaysCallable from_a_side }
{
    let mut room = [0; MOST_NUMBERS];
    let count = line.last_words(&mut room)?;
    let (number, place) = match from_a_side(&room[..count]) {
        Ok(place) => (0, place),
        Err(refusal) => (refusal.number(), 0),
    };
    print!(rt; "{number} {place}")?;
    Ok(())
}

pub fn measure(rt: &impl Print, mut line: Line<'_>) -> Outcome {
    let mut room = [0; MOST_NUMBERS];
    let count = line.last_words(&mut room)?;
    let (number, left, orders, right) = match strip::measure(&room[..count]) {
        Ok(shape) => (0, shape.left, shape.orders, shape.right),
        Err(refusal) => (refusal.number(), 0, 0, 0),
    };
    print!(rt; "{number} {left} {orders} {right}")?;
    Ok(())
}

pub fn start(rt: &impl Print, mut line: Line<'_>) -> Outcome {
    let max = line.compared()?;
    let rec = line.record()?;
    let operation = line.compared()?;
    let order = line.order()?;
    line.end()?;
    say(rt, party::start(max, rec, operation, order))
}

pub fn withdraw(rt: &impl Print, mut line: Line<'_>) -> Outcome {
    let max = line.compared()?;
    let rec = line.record()?;
    line.end()?;
    say(rt, party::withdraw(max, rec))
}

pub fn step(rt: &impl Print, mut line: Line<'_>) -> Outcome {
    let hint = line.compared()?;
    let rec = line.record()?;
    let mut room = [0; MOST_NUMBERS];
    let count = line.last_words(&mut room)?;
    let strip = &mut room[..count];
    say(rt, step::step(strip, rec, hint))?;
    print!(rt; "{}", Words(strip))?;
    Ok(())
}
