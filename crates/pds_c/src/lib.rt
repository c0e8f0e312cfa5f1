// The C names: pds's four functions, exported for the archive libpds.a, which a crate that others use cannot make. A slice passes as a
// pointer and a length.
#![tactic(auto)]

ghost use Rattle.call.specs.Call.{Call};
ghost use Rattle.image.specs.Calls.{lay_of, image_of};
ghost use Rattle.pds.specs.Packed.{PackedPromise};

#[unsafe(no_mangle)]
pub extern "C" fn pds_lay(image: &mut [u8], max: u32, parties: u32, divide: u32) -> u64
    ensures { PackedPromise (lay_of image.old max parties divide) result image.new }
{
    pds::pds_lay(image, max, parties, divide)
}

#[unsafe(no_mangle)]
pub extern "C" fn pds_start(image: &mut [u8], party: u32, operation: u32, order: u32) -> u64
    ensures { PackedPromise (image_of image.old (Call.start party operation order)) result image.new }
{
    pds::pds_start(image, party, operation, order)
}

#[unsafe(no_mangle)]
pub extern "C" fn pds_step(image: &mut [u8], party: u32, hint: u32) -> u64
    ensures { PackedPromise (image_of image.old (Call.step party hint)) result image.new }
{
    pds::pds_step(image, party, hint)
}

#[unsafe(no_mangle)]
pub extern "C" fn pds_withdraw(image: &mut [u8], party: u32) -> u64
    ensures { PackedPromise (image_of image.old (Call.withdraw party)) result image.new }
{
    pds::pds_withdraw(image, party)
}
