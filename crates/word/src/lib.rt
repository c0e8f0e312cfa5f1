// A word of the strip and the two accesses that the library makes to one: look and swap.
#![tactic(auto)]

ghost use Rattle.std.specs.Prelude.{◌≡◌, ◌<◌, length, get_or};
ghost use Rattle.word.specs.Word.{value_of, counter_of, raised_to, last_counter};
ghost use Rattle.word.specs.Swap.{swap_of, SwapPromise};

// What a swap answers: won; lost, with the word it met; or it would win, but the counter is at its end. No Result: a swap that is lost is
// no error, the operation goes on.
#[derive(Clone, Copy, Debug, PartialEq, Eq)]
pub enum Swapped {
    Won,
    Lost(u64),
    Stuck,
}

pub fn value(w: u64) -> u32
    ensures { result ≡ value_of w }
{
    (w % 4294967296) as u32
}

pub fn counter(w: u64) -> u32
    ensures { result ≡ counter_of w }
{
    (w / 4294967296) as u32
}

// What a swap from w to a value writes. It is public for the other kinds of memory and asks that the counter has not ended.
pub fn raised(w: u64, to: u32) -> u64
    requires { counter_of w < last_counter }
    ensures { result ≡ raised_to w to }
{
    (w / 4294967296 + 1) * 4294967296 + to as u64
}

// How a swap ends that expects `from` and meets `met`.
fn weigh(met: u64, from: u64) -> Swapped
    ensures { result ≡ swap_of met from }
{
    if met != from {
        return Swapped::Lost(met);
    }
    if counter(from) == u32::MAX {
        return Swapped::Stuck;
    }
    Swapped::Won
}

// The first access. It is public for the step, which checks the place.
pub fn look(strip: &[u64], place: usize) -> u64
    requires { place < length strip.now }
    ensures { result ≡ get_or strip.now place 0 }
{
    strip[place]
}

// The second access. It is public for the step, which checks the place.
pub fn swap(strip: &mut [u64], place: usize, from: u64, to: u32) -> Swapped
    requires { place < length strip.old }
    ensures { SwapPromise strip.old place from to result strip.new }
{
    let got = weigh(strip[place], from);
    if let Swapped::Won = got {
        strip[place] = raised(from, to);
    }
    got
}
