// A call of a party on a strip and a table of records: the checks before the record's own. Public for whatever holds a table.
#![tactic(auto)]

ghost use Rattle.std.specs.Prelude.{◌≡◌};
ghost use Rattle.call.specs.Call.{table_fits, gate_of};

use refusal::Refusal;
use step::strip_fits;

pub fn table_fits(parties: usize) -> bool
    ensures { result ≡ table_fits parties }
{
    (1..=16).contains(&parties)
}

// Sizes, operation, party number.
pub fn gated(words: usize, unknown: bool, parties: usize, party: u32) -> Result<(), Refusal>
    ensures { result ≡ gate_of words parties unknown party }
{
    if !(strip_fits(words) & table_fits(parties)) {
        return Err(Refusal::WrongSize);
    }
    if unknown {
        return Err(Refusal::WrongOperation);
    }
    if parties <= party as usize {
        return Err(Refusal::WrongParty);
    }
    Ok(())
}
