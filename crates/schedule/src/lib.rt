// The schedule file, its run and its listing.
#![tactic(auto)]

mod checks;
mod entries;

ghost use Rattle.std.specs.Prelude.{◌≡◌, ◌+◌, length};
ghost use Rattle.std.specs.declared.result.Result.TheVariants.{Ok};
ghost use Rattle.text.specs.Writing.{Room, Puts};
ghost use Rattle.schedule.specs.Inside.{header_of};
ghost use Rattle.schedule.specs.List.{listing_of, words_at_end, ListPromise};

use crate::checks::read_listed;
use crate::entries::run_entries;
use listing::{put_cells, put_header};
use refusal::Refusal;
use strip::lay;
use text::Text;

// A bound: no listing is longer.
pub const LISTING_BOUND: usize = 147489;

// What the header of a file says that is taken.
#[derive(Clone, Copy)]
struct Header {
    max: u16,
    divide: u16,
    parties: u8,
}

// The header, a line for each entry, the cells.
#[tactic(auto, using(crate::proofs::Files::said))]
fn run_and_tell(file: &[u8], h: Header, strip: &mut [u64], text: &mut Text)
    requires { (header_of file.now ≡ Ok h) × (length strip.old ≡ h.max + 2) × Room (listing_of file.now) text.old }
    ensures lines { Puts (listing_of file.now) text.old text.new }
    ensures words { strip.new ≡ words_at_end file.now }
{
    // never refused: the file's divide is within its MAX
    let _ = lay(strip, h.divide as u32);
    put_header(text, h.max, h.divide, h.parties);
    let (entries, _) = file[10..].as_chunks::<8>();
    run_entries(entries, strip, h.parties, text);
    put_cells(text, strip);
}

// List: runs every entry of a schedule file on a fresh strip, laid in the first MAX+2 of 4,096 lent words, and writes the
// listing into lent bytes, at least LISTING_BOUND of them. It answers the listing's length.
#[tactic(auto, using(crate::proofs::Refusing::list_refuses))]
pub fn list(file: &[u8], strip: &mut [u64], out: &mut [u8]) -> Result<usize, Refusal>
    ensures { ListPromise file.now strip.old out.old result strip.new out.new }
{
    let h = read_listed(file, strip.len(), out.len())?;
    let words = h.max as usize + 2;
    let mut text = Text { out, at: 0 };
    run_and_tell(file, h, &mut strip[..words], &mut text);
    Ok(text.at)
}
