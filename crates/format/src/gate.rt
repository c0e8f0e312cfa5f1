// The checks before the record's own: the header, what it says, and the named record.
ghost use Rattle.std.specs.Prelude.{◌≡◌};
ghost use Rattle.format.specs.Format.{is_known, records_base, sizes_fit};
ghost use Rattle.format.specs.Inside.{header_of, named_of};

use crate::fields::is_spare;
use crate::{Header, Named, WORDS};
use header::{counts_fit, is_marked, max, parties, version};
use refusal::Refusal;

fn is_known(version: u16) -> bool
    ensures { result ≡ is_known version }
{
    version == 1
}

// Where the records begin, in every version that is known.
pub fn records_base(version: u16, max: u32) -> usize
    ensures { result ≡ records_base version max }
{
    WORDS + 8 * (max as usize + 2)
}

pub fn sizes_fit(version: u16, bytes: usize, max: u32, parties: u32) -> bool
    ensures { result ≡ sizes_fit version bytes max parties }
{
    counts_fit(max, parties) & (bytes == records_base(version, max) + 32 * (parties as usize))
}

// The header: too short, then mark and version, then what it says.
#[tactic(auto, unfolding(crate::specs::Inside::header_of, crate::specs::Format::header_refusal))]
pub fn read_header(image: &[u8]) -> Result<Header, Refusal>
    ensures { result ≡ header_of image.now }
{
    if image.len() < 8 {
        return Err(Refusal::WrongSize);
    }
    let version = version(image);
    if !(is_marked(image, b'S') & is_known(version)) {
        return Err(Refusal::WrongMark);
    }
    let max = max(image);
    let parties = parties(image);
    if !sizes_fit(version, image.len(), max as u32, parties as u32) {
        return Err(Refusal::WrongSize);
    }
    Ok(Header {
        version,
        max,
        parties,
    })
}

// The checks before the record's own: header, operation, party number, and the record's spare bytes.
pub fn read_named(image: &[u8], unknown: bool, party: u32) -> Result<Named, Refusal>
    ensures { result ≡ named_of image.now unknown party }
{
    let h = read_header(image)?;
    if unknown {
        return Err(Refusal::WrongOperation);
    }
    if h.parties as u32 <= party {
        return Err(Refusal::WrongParty);
    }
    let at = records_base(h.version, h.max as u32) + 32 * (party as usize);
    if !is_spare(image, at) {
        return Err(Refusal::NotValid);
    }
    Ok(Named { max: h.max, at })
}
