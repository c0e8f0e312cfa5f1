// One of two by a test.
#![tactic(auto)]

ghost use Rattle.std.specs.Prelude.{◌≡◌};
ghost use Rattle.logic.specs.Pick.{pick};

pub fn pick<T: Drop>(test: bool, a: T, b: T) -> T
    ensures { result ≡ pick test a b }
{
    if test { a } else { b }
}
