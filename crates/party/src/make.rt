// What the calls answer, with the record they leave.
ghost use Rattle.std.specs.Prelude.{◌≡◌};
ghost use Rattle.party.specs.Answer.{going_on, idle_after, refused};

use crate::{Answer, Answered};
use record::Record;
use refusal::Reason;

pub fn going_on(r: Record) -> Answered
    ensures { result ≡ going_on r }
{
    Answered {
        answer: Ok(Answer::GoesOn),
        rec: r,
    }
}

// The record is all zero behind every answer that it is handed, a refusal too.
pub fn ended<E: Reason>(answer: Result<Answer, E>) -> Answered<E>
    ensures { result ≡ idle_after answer }
{
    Answered {
        answer,
        rec: Record::idle(),
    }
}

pub fn refused_with<E: Reason>(refusal: E, r: Record) -> Answered<E>
    ensures { result ≡ refused refusal r }
{
    Answered {
        answer: Err(refusal),
        rec: r,
    }
}
