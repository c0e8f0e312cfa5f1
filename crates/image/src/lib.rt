// The image: four calls on lent bytes.
#![tactic(auto)]

mod accesses;

ghost use Rattle.call.specs.Call.{Call};
ghost use Rattle.image.specs.Calls.{lay_of, image_of, ImagePromise};

use crate::accesses::Stepped;
use format::WORDS;
use format::fields::{read_record, write_record};
use format::fresh::{lay_header, lay_rights, lay_zeros};
use format::gate::{read_named, sizes_fit};
use party::{Answer, start_own, withdraw_own};
use record::Record;
use refusal::Refusal;
use stages::{Access, access_of};
use step::{aim, step_own};

// Lay: a fresh image. It looks at the length only, at no byte already there.
pub fn lay(image: &mut [u8], max: u32, parties: u32, divide: u32) -> Result<Answer, Refusal>
    ensures { ImagePromise (lay_of image.old max parties divide) result image.new }
{
    if !sizes_fit(1, image.len(), max, parties) {
        return Err(Refusal::WrongSize);
    }
    if max < divide {
        return Err(Refusal::Outside);
    }
    lay_header(image, 1, max as u16, parties as u8);
    lay_zeros(
        image,
        WORDS,
        8 * (max as usize + 2) + 32 * (parties as usize),
    );
    lay_rights(image, WORDS, max as u16, divide);
    Ok(Answer::GoesOn)
}

// Start: operation and order into the named party's idle record.
pub fn start(image: &mut [u8], party: u32, operation: u32, order: u32) -> Result<Answer, Refusal>
    ensures { ImagePromise (image_of image.old (Call.start party operation order)) result image.new }
{
    let found = read_named(image, 3 < operation, party)?;
    let r = read_record(image, found.at);
    start_own(found.max, r, operation as u8, order)?;
    write_record(image, found.at, Record::begun(operation as u8, order));
    Ok(Answer::GoesOn)
}

// Step: one access to the strip, and what follows it.
pub fn step(image: &mut [u8], party: u32, hint: u32) -> Result<Answer, Refusal>
    ensures { ImagePromise (image_of image.old (Call.step party hint)) result image.new }
{
    let found = read_named(image, false, party)?;
    let r = read_record(image, found.at);
    step_own(found.max, r, hint)?;
    let aimed = aim(r, hint);
    let on = Stepped {
        max: found.max,
        at: found.at,
        rec: aimed,
    };
    match access_of(aimed) {
        Access::Look(place, then) => on.look(image, place, then),
        Access::Swap(place, from, to, then) => on.swap(image, place, from, to, then),
    }
}

// Withdraw: the named party's busy record becomes all zero.
pub fn withdraw(image: &mut [u8], party: u32) -> Result<Answer, Refusal>
    ensures { ImagePromise (image_of image.old (Call.withdraw party)) result image.new }
{
    let found = read_named(image, false, party)?;
    let r = read_record(image, found.at);
    withdraw_own(found.max, r)?;
    write_record(image, found.at, Record::idle());
    Ok(Answer::GoesOn)
}
