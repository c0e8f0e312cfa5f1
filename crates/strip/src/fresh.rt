// A fresh strip, word by word.
ghost use Rattle.std.specs.Prelude.{◌≡◌, ◌+◌, ◌≤◌, length};
ghost use Rattle.step.specs.Step.{max_of};
ghost use Rattle.strip.specs.Lay.{fresh_strip};

// LN up to the divide, RN after it. Lay, which checks the divide, calls it.
pub fn fill(strip: &mut [u64], divide: usize)
    requires { divide + 2 ≤ length strip.old }
    ensures { strip.new ≡ fresh_strip (max_of (length strip.old)) divide }
{
    strip[..=divide].fill(0);
    strip[divide + 1..].fill(1);
}
