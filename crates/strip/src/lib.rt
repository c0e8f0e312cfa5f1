// The strip as a whole: lay a fresh one, measure it.
#![tactic(auto)]

mod checks;
mod fresh;

ghost use Rattle.std.specs.Prelude.{◌≡◌};
ghost use Rattle.strip.specs.Lay.{LayPromise};
ghost use Rattle.strip.specs.Measure.{measure_of};

use crate::checks::lay_refusal;
use crate::fresh::fill;
use refusal::Refusal;
use step::strip_fits;
use word::value;

// What measure finds of a shaped strip: L, the number of orders and R.
#[derive(Clone, Copy, Debug, PartialEq, Eq)]
pub struct Shape {
    pub left: u32,
    pub orders: u32,
    pub right: u32,
}

// Lay: LN in 0..divide, RN in the rest, all counters 0.
#[tactic(auto, unfolding(crate::specs::Lay::lay_refusal, crate::specs::Lay::lay_leaves))]
pub fn lay(strip: &mut [u64], divide: u32) -> Result<(), Refusal>
    ensures { LayPromise strip.old divide result strip.new }
{
    lay_refusal(strip.len(), divide)?;
    fill(strip, divide as usize);
    Ok(())
}

// Measure: the runs of LN, orders and RN that a shaped strip is made of.
#[tactic(auto, unfolding(crate::specs::Measure::measure_of))]
pub fn measure(strip: &[u64]) -> Result<Shape, Refusal>
    ensures { result ≡ measure_of strip.now }
{
    if !strip_fits(strip.len()) {
        return Err(Refusal::WrongSize);
    }
    let lefts = strip.iter().take_while(|word| value(**word) == 0).count();
    let orders = strip[lefts..]
        .iter()
        .take_while(|word| 3 <= value(**word))
        .count();
    let rights = strip[lefts + orders..]
        .iter()
        .take_while(|word| value(**word) == 1)
        .count();
    let shaped = (1 <= lefts) & (1 <= rights) & (lefts + orders + rights == strip.len());
    if !shaped {
        return Err(Refusal::NotShaped);
    }
    Ok(Shape {
        left: (lefts - 1) as u32,
        orders: orders as u32,
        right: (rights - 1) as u32,
    })
}
