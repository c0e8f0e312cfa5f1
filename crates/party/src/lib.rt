// A party: what a call answers, and the two calls that need no strip.
#![tactic(auto)]

pub mod make;
#[cfg(test)]
mod tests;

ghost use Rattle.std.specs.Prelude.{◌≡◌};
ghost use Rattle.party.specs.Answer.{number_by, order_in};
ghost use Rattle.party.specs.Calls.{max_fits, start_own, start_refusal, start_of};
ghost use Rattle.party.specs.Calls.{withdraw_own, withdraw_refusal, withdraw_of};

use crate::make::{going_on, refused_with};
use record::Record;
use record::side::order_fits;
use refusal::{Reason, Refusal};

// What a call that is not refused answers: specs/Answer.antt gives document 01's number and carried order for each case.
#[derive(Clone, Copy, Debug, PartialEq, Eq)]
pub enum Answer {
    GoesOn,
    Pushed,
    Popped(u32),
    Full,
    Empty,
}

// The answer of a call that was handed a record by value, and the record it leaves. What refuses a call here is a `Refusal`.
#[derive(Clone, Copy)]
pub struct Answered<E = Refusal> {
    pub answer: Result<Answer, E>,
    pub rec: Record,
}

// Document 01's number of an answer; what refuses it tells its own.
pub fn number<E: Reason>(answer: Result<Answer, E>) -> u32
    ensures { result ≡ number_by E.number_told answer }
{
    match answer {
        Ok(Answer::GoesOn) => 0,
        Ok(Answer::Pushed) => 16,
        Ok(Answer::Popped(_)) => 17,
        Ok(Answer::Full) => 18,
        Ok(Answer::Empty) => 19,
        Err(refusal) => refusal.told(),
    }
}

// The order that an answer carries.
pub fn carried<E: Reason>(answer: Result<Answer, E>) -> u32
    ensures { result ≡ order_in answer }
{
    match answer {
        Ok(Answer::Popped(order)) => order,
        _ => 0,
    }
}

fn max_fits(max: u32) -> bool
    ensures { result ≡ max_fits max }
{
    (1..=4094).contains(&max)
}

// The record's own checks, public for the other kinds of memory.
#[tactic(auto, unfolding(crate::specs::Calls::start_own))]
pub fn start_own(max: u16, r: Record, operation: u8, order: u32) -> Result<(), Refusal>
    ensures { result ≡ start_own max r operation order }
{
    if !r.is_valid(max) {
        return Err(Refusal::NotValid);
    }
    if r.stage != 0 {
        return Err(Refusal::Busy);
    }
    if !order_fits(operation, order) {
        return Err(Refusal::WrongOrder);
    }
    Ok(())
}

#[tactic(auto, unfolding(crate::specs::Calls::start_refusal))]
fn start_refusal(max: u32, r: Record, operation: u32, order: u32) -> Result<(), Refusal>
    ensures { result ≡ start_refusal max r operation order }
{
    if !max_fits(max) {
        return Err(Refusal::WrongSize);
    }
    if 3 < operation {
        return Err(Refusal::WrongOperation);
    }
    start_own(max as u16, r, operation as u8, order)
}

// Start: operation and order into an idle record.
#[tactic(auto, using(crate::proofs::Cleared::startable), unfolding(crate::specs::Calls::start_of))]
pub fn start(max: u32, r: Record, operation: u32, order: u32) -> Answered
    ensures { result ≡ start_of max r operation order }
{
    match start_refusal(max, r, operation, order) {
        Ok(()) => going_on(Record::begun(operation as u8, order)),
        Err(refusal) => refused_with(refusal, r),
    }
}

#[tactic(auto, unfolding(crate::specs::Calls::withdraw_own))]
pub fn withdraw_own(max: u16, r: Record) -> Result<(), Refusal>
    ensures { result ≡ withdraw_own max r }
{
    if !r.is_valid(max) {
        Err(Refusal::NotValid)
    } else if r.stage == 0 {
        Err(Refusal::Idle)
    } else {
        Ok(())
    }
}

#[tactic(auto, unfolding(crate::specs::Calls::withdraw_refusal))]
fn withdraw_refusal(max: u32, r: Record) -> Result<(), Refusal>
    ensures { result ≡ withdraw_refusal max r }
{
    if !max_fits(max) {
        return Err(Refusal::WrongSize);
    }
    withdraw_own(max as u16, r)
}

// Withdraw: a busy record becomes all zero.
#[tactic(auto, unfolding(crate::specs::Calls::withdraw_of))]
pub fn withdraw(max: u32, r: Record) -> Answered
    ensures { result ≡ withdraw_of max r }
{
    match withdraw_refusal(max, r) {
        Ok(()) => going_on(Record::idle()),
        Err(refusal) => refused_with(refusal, r),
    }
}
