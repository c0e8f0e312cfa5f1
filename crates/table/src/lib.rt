// The lent table of records: start, step and withdraw of the numbered party, where its record stands; and of one record that is
// lent alone. The work is done by functions that take and give the record by value.
#![tactic(auto)]

ghost use Rattle.std.specs.Prelude.{◌≡◌};
ghost use Rattle.call.specs.Call.Call.{start, step, withdraw};
ghost use Rattle.table.specs.Lent.{alone, Does, DoesAtMax};

use call::gated;
use party::{Answer, Answered, carried};
use record::Record;
use refusal::Refusal;

// What a call on lent records says: its answer, and the order that comes back with it, which a refusal does not carry.
#[derive(Clone, Copy, Debug, PartialEq, Eq)]
pub struct Said {
    pub answer: Result<Answer, Refusal>,
    pub carried: u32,
}

// One record that is lent alone: taken apart, handed to the call by value and stored again.
// Three functions, since document 01's form names them so; one over the call was tried too, and of a strip that a closure borrows nothing is
// known after the call.
#[tactic(auto, using(crate::proofs::Promised::step_alone))]
pub fn step_record(strip: &mut [u64], r: &mut Record, hint: u32) -> Said
    ensures { Does strip.old (alone r.old) (step 0 hint) result.answer result.carried strip.new (alone r.new) }
{
    let Answered { answer, rec } = step::step(strip, *r, hint);
    *r = rec;
    Said {
        answer,
        carried: carried(answer),
    }
}

// The record of the numbered party, where it stands in the lent table. The others are as they were.
pub fn step_in(strip: &mut [u64], table: &mut [Record], party: u32, hint: u32) -> Said
    ensures { Does strip.old table.old (step party hint) result.answer result.carried strip.new table.new }
{
    match gated(strip.len(), false, table.len(), party) {
        Err(refusal) => Said {
            answer: Err(refusal),
            carried: 0,
        },
        Ok(()) => step_record(strip, &mut table[party as usize], hint),
    }
}

// Start and withdraw are handed MAX and no strip.
#[tactic(auto, using(crate::proofs::Promised::start_alone))]
pub fn start_record(max: u32, r: &mut Record, operation: u32, order: u32) -> Said
    ensures { DoesAtMax max (alone r.old) (start 0 operation order) result.answer result.carried (alone r.new) }
{
    let Answered { answer, rec } = party::start(max, *r, operation, order);
    *r = rec;
    Said {
        answer,
        carried: carried(answer),
    }
}

pub fn start_in(max: u32, table: &mut [Record], party: u32, operation: u32, order: u32) -> Said
    ensures { DoesAtMax max table.old (start party operation order) result.answer result.carried table.new }
{
    match gated(max as usize + 2, 3 < operation, table.len(), party) {
        Err(refusal) => Said {
            answer: Err(refusal),
            carried: 0,
        },
        Ok(()) => start_record(max, &mut table[party as usize], operation, order),
    }
}

#[tactic(auto, using(crate::proofs::Promised::withdraw_alone))]
pub fn withdraw_record(max: u32, r: &mut Record) -> Said
    ensures { DoesAtMax max (alone r.old) (withdraw 0) result.answer result.carried (alone r.new) }
{
    let Answered { answer, rec } = party::withdraw(max, *r);
    *r = rec;
    Said {
        answer,
        carried: carried(answer),
    }
}

pub fn withdraw_in(max: u32, table: &mut [Record], party: u32) -> Said
    ensures { DoesAtMax max table.old (withdraw party) result.answer result.carried table.new }
{
    match gated(max as usize + 2, false, table.len(), party) {
        Err(refusal) => Said {
            answer: Err(refusal),
            carried: 0,
        },
        Ok(()) => withdraw_record(max, &mut table[party as usize]),
    }
}
