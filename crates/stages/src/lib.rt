// Document 01's table of stages: the one access that a stage makes, and what follows it. It makes no access itself, so it serves every
// kind of memory.
#![tactic(auto)]

pub mod follow;

ghost use Rattle.std.specs.Prelude.{◌≡◌};
ghost use Rattle.stages.specs.Stages.{access_of};

use record::Record;
use record::side::{neighbour_of, own_null};
use word::value;

// What follows a look: the word is remembered as the first; as the second, and judged; or rechecks the first. A name and no closure: the
// table is to say each case's successor, the swap on an image writes what follows by itself, and no function may hand a closure out.
#[derive(Clone, Copy)]
pub enum AfterLook {
    Remember,
    Judge,
    Recheck,
}

// What follows a swap that won: stage 5, or the push or the pop is done. One that lost goes to stage 1.
#[derive(Clone, Copy)]
pub enum AfterSwap {
    Onward,
    Push,
    Pop,
}

// What a stage does: one access, and what follows it. A swap goes from a word to a value.
#[derive(Clone, Copy)]
pub enum Access {
    Look(u32, AfterLook),
    Swap(u32, u64, u32, AfterSwap),
}

// The table, as one match.
#[tactic(auto, unfolding(crate::specs::Stages::access_of))]
pub fn access_of(r: Record) -> Access
    ensures { result ≡ access_of r }
{
    let stage = r.stage;
    let operation = r.operation;
    let k = r.k as u32;
    let near = neighbour_of(operation, r.k);
    let own = own_null(operation);
    match stage {
        1 => Access::Look(near, AfterLook::Remember),
        2 => Access::Look(k, AfterLook::Judge),
        3 => Access::Look(near, AfterLook::Recheck),
        4 => match operation {
            0 | 2 => Access::Swap(near, r.first, value(r.first), AfterSwap::Onward),
            _ => Access::Swap(k, r.second, own, AfterSwap::Onward),
        },
        5 => match operation {
            0 | 2 => Access::Swap(k, r.second, r.v, AfterSwap::Push),
            _ => Access::Swap(near, r.first, own, AfterSwap::Pop),
        },
        // no valid record comes here: it is never made
        _ => Access::Look(near, AfterLook::Remember),
    }
}
