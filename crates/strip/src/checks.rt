// The checks of laying.
ghost use Rattle.std.specs.Prelude.{◌≡◌};
ghost use Rattle.strip.specs.Lay.{lay_refusal};

use refusal::Refusal;
use step::strip_fits;

#[tactic(auto, unfolding(crate::specs::Lay::lay_refusal))]
pub fn lay_refusal(words: usize, divide: u32) -> Result<(), Refusal>
    ensures { result ≡ lay_refusal words divide }
{
    if !strip_fits(words) {
        return Err(Refusal::WrongSize);
    }
    if words - 2 < divide as usize {
        return Err(Refusal::Outside);
    }
    Ok(())
}
