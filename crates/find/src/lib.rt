// Find: the place of a strip where a side works, a hint for its next step.
#![tactic(auto)]

ghost use Rattle.std.specs.Prelude.{◌≡◌, ◌≤◌, ◌<◌, length};
ghost use Rattle.record.specs.Operation.{neighbour};
ghost use Rattle.find.specs.Find.{candidate, is_end, find_of};

use record::side::{neighbour_of, own_null};
use refusal::Refusal;
use step::strip_fits;
use word::{look, value};

// The order in which find goes through a side's places: from 1 up on the right, from MAX down on the left.
fn candidate(operation: u8, max: u16, i: u16) -> u16
    requires few { max ≤ 4094 }
    requires inside { i ≤ max }
    ensures { result ≡ candidate operation max i }
{
    if operation < 2 { 1 + i } else { max - i }
}

// Where a side ends: the place holds own null and its neighbour does not.
fn is_end(operation: u8, strip: &[u64], place: u16) -> bool
    requires { (place < length strip.now) × (neighbour operation place < length strip.now) }
    ensures { result ≡ is_end operation strip.now place }
{
    let own = own_null(operation);
    let near = neighbour_of(operation, place) as usize;
    (value(look(strip, place as usize)) == own) & (value(look(strip, near)) != own)
}

// The first place of an operation's side that is its end. Document 01's form, and no chain: a loop that breaks with the found place, or ends
// as refusal 10. The side is an operation, as find_of's is.
#[tactic(auto, unfolding(crate::specs::Find::find_of, crate::specs::Find::first_from))]
fn search(operation: u8, strip: &[u64]) -> Result<u32, Refusal>
    ensures { result ≡ find_of operation strip.now }
{
    if !strip_fits(strip.len()) {
        return Err(Refusal::WrongSize);
    }
    let max = (strip.len() - 2) as u16;
    let mut found = Err(Refusal::NoPlace);
    for i in 0..max + 1 {
        let place = candidate(operation, max, i);
        if is_end(operation, strip, place) {
            found = Ok(place as u32);
            break;
        }
    }
    found
}

// Find right: the first place, from 1 up, that holds RN after a neighbour that is not RN.
pub fn find_right(strip: &[u64]) -> Result<u32, Refusal>
    ensures { result ≡ find_of 0 strip.now }
{
    search(0, strip)
}

// Find left: the first place met, from MAX down, that holds LN before a neighbour that is not LN.
pub fn find_left(strip: &[u64]) -> Result<u32, Refusal>
    ensures { result ≡ find_of 2 strip.now }
{
    search(2, strip)
}
