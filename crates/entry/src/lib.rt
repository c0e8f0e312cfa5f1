// An entry of a schedule: its 8 bytes, and what it does to a strip and its party's record.
#![tactic(auto)]

ghost use Rattle.std.specs.Prelude.{◌≡◌, true, ◌+◌, ◌≤◌, length};
ghost use Rattle.step.specs.Step.{strip_fits};
ghost use Rattle.call.specs.Call.{party_of, is_unknown, gate, own_of, own_leaves};
ghost use Rattle.entry.specs.Entry.{call_at, asked_of};
ghost use Rattle.entry.specs.OnRecord.{on_record_of, on_record_leaves};

use call::gated;
use little::number;
use party::Answered;
use party::make::refused_with;
use record::Record;
use refusal::Refusal;

// What an entry asks for, the party first: specs/Entry.antt gives the call for each case.
// One that asks for nothing known is a start of operation 4: the operation is a number, since an entry may ask for any.
#[derive(Clone, Copy)]
pub enum Entry {
    Start(u8, u8, u32),
    Step(u8, u32),
    Withdraw(u8),
}

// The entry from byte `at` on. Public for the schedule, which has checked the file's length.
#[tactic(auto, unfolding(crate::specs::Entry::call_at))]
pub fn read(file: &[u8], at: usize) -> Entry
    requires { at + 8 ≤ length file.now }
    ensures { asked_of result ≡ call_at file.now at }
{
    let party = file[at + 1];
    let number = number::<4>(file, at + 4) as u32;
    match (file[at], file[at + 2], file[at + 3], number) {
        (0, operation, 0, order) => Entry::Start(party, operation, order),
        (1, 0, 0, hint) => Entry::Step(party, hint),
        (2, 0, 0, 0) => Entry::Withdraw(party),
        _ => Entry::Start(party, 4, 0),
    }
}

// The party that an entry names, public for the run and its listing.
pub fn party_of(e: Entry) -> u8
    ensures { result ≡ party_of (asked_of e) }
{
    match e {
        Entry::Start(party, ..) | Entry::Step(party, _) | Entry::Withdraw(party) => party,
    }
}

fn is_unknown(e: Entry) -> bool
    ensures { result ≡ is_unknown (asked_of e) }
{
    matches!(e, Entry::Start(_, 4.., _))
}

// The checks before the record's own.
#[tactic(auto, unfolding(call::specs::Call::gate))]
fn gate_of(words: usize, parties: u8, e: Entry) -> Result<(), Refusal>
    ensures { result ≡ gate words parties (asked_of e) }
{
    gated(words, is_unknown(e), parties as usize, party_of(e) as u32)
}

// The call on the party's own record.
#[tactic(auto, using(step::proofs::Cleared::strip_within))]
fn own(strip: &mut [u64], r: Record, e: Entry) -> Answered
    requires { strip_fits (length strip.old) ≡ true }
    ensures gives { result ≡ own_of strip.old r (asked_of e) }
    ensures words { strip.new ≡ own_leaves strip.old r (asked_of e) }
{
    let max = (strip.len() - 2) as u32;
    match e {
        Entry::Start(_, operation, order) => party::start(max, r, operation as u32, order),
        Entry::Step(_, hint) => step::step(strip, r, hint),
        Entry::Withdraw(_) => party::withdraw(max, r),
    }
}

// On record: the entry's call on a strip and the record of its party, one of `parties`.
#[tactic(auto, using(call::proofs::Called::past_gate), unfolding(crate::specs::OnRecord::on_record_of, crate::specs::OnRecord::on_record_leaves))]
pub fn on_record(strip: &mut [u64], parties: u8, r: Record, e: Entry) -> Answered
    ensures gives { result ≡ on_record_of strip.old parties r (asked_of e) }
    ensures words { strip.new ≡ on_record_leaves strip.old parties r (asked_of e) }
{
    match gate_of(strip.len(), parties, e) {
        Ok(()) => own(strip, r, e),
        Err(refusal) => refused_with(refusal, r),
    }
}
