// The step: one access for each call.
#![tactic(auto)]

ghost use Rattle.std.specs.Prelude.{◌≡◌, ◌<◌, length};
ghost use Rattle.refusal.specs.Refusal.{passes};
ghost use Rattle.step.specs.Step.{strip_fits, hint_fits, step_own, step_refusal, aimed, StepPromise};

use party::Answered;
use party::make::refused_with;
use record::Record;
use record::side::in_range;
use refusal::Refusal;
use stages::follow::{looked, swapped};
use stages::{Access, access_of};
use word::{look, swap};

// Public for the calls on a whole strip.
pub fn strip_fits(words: usize) -> bool
    ensures { result ≡ strip_fits words }
{
    (3..=4096).contains(&words)
}

fn hint_fits(max: u16, r: Record, hint: u32) -> bool
    ensures { result ≡ hint_fits max r hint }
{
    (r.stage != 1) | in_range(max, r.operation, hint)
}

// The record's own checks, public for the other kinds of memory.
#[tactic(auto, unfolding(crate::specs::Step::step_own))]
pub fn step_own(max: u16, r: Record, hint: u32) -> Result<(), Refusal>
    ensures { result ≡ step_own max r hint }
{
    if !r.is_valid(max) {
        return Err(Refusal::NotValid);
    }
    if r.stage == 0 {
        return Err(Refusal::Idle);
    }
    if !hint_fits(max, r, hint) {
        return Err(Refusal::Outside);
    }
    Ok(())
}

#[tactic(auto, unfolding(crate::specs::Step::step_refusal))]
fn step_refusal(words: usize, r: Record, hint: u32) -> Result<(), Refusal>
    ensures { result ≡ step_refusal words r hint }
{
    if !strip_fits(words) {
        return Err(Refusal::WrongSize);
    }
    step_own((words - 2) as u16, r, hint)
}

// Stage 1 takes the hint as k. It is public for the other kinds of memory, which check the hint first.
pub fn aim(r: Record, hint: u32) -> Record
    requires { r.stage ≡ 1 → hint < 65536 }
    ensures { result ≡ aimed r hint }
{
    if r.stage == 1 {
        return r.with_place(hint as u16);
    }
    r
}

// The access of a step that no check refuses, and what follows it.
#[tactic(auto, unfolding(crate::specs::Step::step_of, crate::specs::Step::step_leaves))]
fn make_access(strip: &mut [u64], r: Record, hint: u32) -> Answered
    requires { step_refusal (length strip.old) r hint ≡ passes }
    ensures { StepPromise strip.old r hint result strip.new }
{
    let max = (strip.len() - 2) as u16;
    let at = aim(r, hint);
    match access_of(at) {
        Access::Look(place, then) => looked(max, at, then, look(strip, place as usize)),
        Access::Swap(place, from, to, then) => swapped(
            at,
            then,
            swap(strip, place as usize, from, to),
        ),
    }
}

// Step: one access to the strip, and what follows it.
#[tactic(auto, unfolding(crate::specs::Step::step_of, crate::specs::Step::step_leaves))]
pub fn step(strip: &mut [u64], r: Record, hint: u32) -> Answered
    ensures { StepPromise strip.old r hint result strip.new }
{
    match step_refusal(strip.len(), r, hint) {
        Ok(()) => make_access(strip, r, hint),
        Err(refusal) => refused_with(refusal, r),
    }
}
