// The C boundary: four exported functions, and nothing else. A slice passes as a pointer and a length.
#![tactic(auto)]

ghost use Rattle.std.specs.Prelude.{◌≡◌};
ghost use Rattle.call.specs.Call.{Call};
ghost use Rattle.image.specs.Calls.{lay_of, image_of};
ghost use Rattle.pds.specs.Packed.{packed_of, PackedPromise};

use image::{lay, start, step, withdraw};
use party::{Answer, carried, number};
use refusal::Refusal;

// Number + 2^32 × carried order.
fn packed(answer: Result<Answer, Refusal>) -> u64
    ensures { result ≡ packed_of answer }
{
    number(answer) as u64 + carried(answer) as u64 * 4294967296
}

#[unsafe(no_mangle)]
pub extern "C" fn pds_lay(image: &mut [u8], max: u32, parties: u32, divide: u32) -> u64
    ensures { PackedPromise (lay_of image.old max parties divide) result image.new }
{
    packed(lay(image, max, parties, divide))
}

#[unsafe(no_mangle)]
pub extern "C" fn pds_start(image: &mut [u8], party: u32, operation: u32, order: u32) -> u64
    ensures { PackedPromise (image_of image.old (Call.start party operation order)) result image.new }
{
    packed(start(image, party, operation, order))
}

#[unsafe(no_mangle)]
pub extern "C" fn pds_step(image: &mut [u8], party: u32, hint: u32) -> u64
    ensures { PackedPromise (image_of image.old (Call.step party hint)) result image.new }
{
    packed(step(image, party, hint))
}

#[unsafe(no_mangle)]
pub extern "C" fn pds_withdraw(image: &mut [u8], party: u32) -> u64
    ensures { PackedPromise (image_of image.old (Call.withdraw party)) result image.new }
{
    packed(withdraw(image, party))
}
