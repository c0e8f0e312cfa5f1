// The checks of a schedule file, in document 01's order. Each answers what the header says, so that no one reads it again.
ghost use Rattle.std.specs.Prelude.{◌≡◌};
ghost use Rattle.schedule.specs.Inside.{header_of, listed_header};

use crate::{Header, LISTING_BOUND};
use header::{counts_fit, is_marked, max, parties, version};
use little::number;
use refusal::Refusal;

#[tactic(auto, unfolding(crate::specs::Inside::header_of, crate::specs::File::file_refusal))]
fn read_header(file: &[u8]) -> Result<Header, Refusal>
    ensures { result ≡ header_of file.now }
{
    if file.len() < 10 {
        return Err(Refusal::WrongSize);
    }
    if !(is_marked(file, b'O') & (version(file) == 1)) {
        return Err(Refusal::WrongMark);
    }
    let max = max(file);
    let parties = parties(file);
    let behind = file.len() - 10;
    if !(counts_fit(max as u32, parties as u32) & ((behind % 8 == 0) & (behind / 8 <= 2048))) {
        return Err(Refusal::WrongSize);
    }
    let divide = number::<2>(file, 8) as u16;
    if max < divide {
        return Err(Refusal::Outside);
    }
    Ok(Header {
        max,
        divide,
        parties,
    })
}

// The strip and the room that are lent, then the file.
#[tactic(auto, unfolding(crate::specs::Inside::header_of, crate::specs::Inside::listed_header, crate::specs::List::list_refusal))]
pub fn read_listed(file: &[u8], words: usize, room: usize) -> Result<Header, Refusal>
    ensures { result ≡ listed_header file.now words room }
{
    if !((words == 4096) & (LISTING_BOUND <= room)) {
        return Err(Refusal::WrongSize);
    }
    read_header(file)
}
