// What follows an access. It makes no access itself, so it serves every kind of memory.
ghost use Rattle.std.specs.Prelude.{◌≡◌};
ghost use Rattle.stages.specs.Follow.{misled, push_at_wall, pop_at_far, judge_of, recheck_of, looked_of, won_of, swapped_of};

use crate::{AfterLook, AfterSwap};
use party::make::{ended, going_on, refused_with};
use party::{Answer, Answered};
use record::Record;
use record::side::{far_null, is_push, own_null};
use refusal::Refusal;
use word::{Swapped, value};

fn is_misled(r: Record, word: u64) -> bool
    ensures { result ≡ misled r word }
{
    let own = own_null(r.operation);
    (value(r.first) == own) | (value(word) != own)
}

fn is_push_at_wall(max: u16, r: Record) -> bool
    ensures { result ≡ push_at_wall max r }
{
    is_push(r.operation) & r.at_wall(max)
}

fn is_pop_at_far(r: Record) -> bool
    ensures { result ≡ pop_at_far r }
{
    !is_push(r.operation) & (value(r.first) == far_null(r.operation))
}

#[tactic(auto, unfolding(crate::specs::Follow::judge_of))]
fn judge(max: u16, r: Record, word: u64) -> Answered
    ensures { result ≡ judge_of max r word }
{
    if is_misled(r, word) {
        return going_on(r.begun_again());
    }
    if is_push_at_wall(max, r) {
        return ended(Ok(Answer::Full));
    }
    if is_pop_at_far(r) {
        return going_on(r.with_second(word).at_stage(3));
    }
    going_on(r.with_second(word).at_stage(4))
}

#[tactic(auto, unfolding(crate::specs::Follow::recheck_of))]
fn recheck(r: Record, word: u64) -> Answered
    ensures { result ≡ recheck_of r word }
{
    if word == r.first {
        return ended(Ok(Answer::Empty));
    }
    going_on(r.at_stage(4))
}

pub fn looked(max: u16, r: Record, then: AfterLook, word: u64) -> Answered
    ensures { result ≡ looked_of max r then word }
{
    match then {
        AfterLook::Remember => going_on(r.with_first(word).at_stage(2)),
        AfterLook::Judge => judge(max, r, word),
        AfterLook::Recheck => recheck(r, word),
    }
}

fn won(r: Record, then: AfterSwap) -> Answered
    ensures { result ≡ won_of r then }
{
    match then {
        AfterSwap::Onward => going_on(r.at_stage(5)),
        AfterSwap::Push => ended(Ok(Answer::Pushed)),
        AfterSwap::Pop => ended(Ok(Answer::Popped(value(r.first)))),
    }
}

pub fn swapped(r: Record, then: AfterSwap, got: Swapped) -> Answered
    ensures { result ≡ swapped_of r then got }
{
    match got {
        Swapped::Won => won(r, then),
        Swapped::Lost(_) => going_on(r.begun_again()),
        Swapped::Stuck => refused_with(Refusal::CounterAtEnd, r),
    }
}
