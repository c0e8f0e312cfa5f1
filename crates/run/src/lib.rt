// One entry of a run: what is told of its answer, and what its party is left with.
#![tactic(auto)]

ghost use Rattle.std.specs.Prelude.{◌≡◌};
ghost use Rattle.entry.specs.Entry.{asked_of};
ghost use Rattle.entry.specs.OnRecord.{on_record_leaves};
ghost use Rattle.history.specs.Run.{is_step};
ghost use Rattle.run.specs.Turn.{effect_of, look_of, turn_of, party_in_16};

use entry::{Entry, on_record, party_of};
use party::{Answer, Answered};
use record::Record;
use refusal::Refusal;

// A party of a run: its record, and the entry of its last look.
#[derive(Clone, Copy)]
pub struct Party {
    pub rec: Record,
    pub look: u32,
}

// What one entry came to: its answer, the entry where the operation took effect, if it did, and what its party is left with.
#[derive(Clone, Copy)]
pub struct Turn {
    pub answer: Result<Answer, Refusal>,
    pub effect: Option<u32>,
    pub party: Party,
}

// Where an entry's party stands in arrays of 16. One past the count is turned away, whatever record it is handed.
pub fn party_in_16(e: Entry) -> usize
    ensures { result ≡ party_in_16 (asked_of e) }
{
    party_of(e) as usize % 16
}

fn is_step(e: Entry) -> bool
    ensures { result ≡ is_step (asked_of e) }
{
    matches!(e, Entry::Step(..))
}

// PUSHED and POPPED took effect at the answering entry, FULL and EMPTY at the party's last look.
fn effect(answer: Result<Answer, Refusal>, look: u32, entry: u32) -> Option<u32>
    ensures { result ≡ effect_of answer look entry }
{
    match answer {
        Ok(Answer::Pushed | Answer::Popped(_)) => Some(entry),
        Ok(Answer::Full | Answer::Empty) => Some(look),
        Ok(Answer::GoesOn) | Err(_) => None,
    }
}

// A step that goes on from stage 1 or 2 has looked.
fn look(a: Answered, steps: bool, before: Party, entry: u32) -> u32
    ensures { result ≡ look_of a steps before entry }
{
    let goes_on = matches!(a.answer, Ok(Answer::GoesOn));
    if steps & goes_on & matches!(before.rec.stage, 1 | 2) {
        return entry;
    }
    before.look
}

// One entry on its party.
pub fn take_turn(strip: &mut [u64], parties: u8, party: Party, entry: u32, e: Entry) -> Turn
    ensures tells { result ≡ turn_of strip.old parties party entry (asked_of e) }
    ensures words { strip.new ≡ on_record_leaves strip.old parties party.rec (asked_of e) }
{
    let a = on_record(strip, parties, party.rec, e);
    Turn {
        answer: a.answer,
        effect: effect(a.answer, party.look, entry),
        party: Party {
            rec: a.rec,
            look: look(a, is_step(e), party, entry),
        },
    }
}
