// The run: one entry after the other, each with its line.
ghost use Rattle.std.specs.Prelude.{◌≡◌, ◌≤◌, length};
ghost use Rattle.text.specs.Writing.{Room, Puts};
ghost use Rattle.history.specs.Run.{begin, end_from};
ghost use Rattle.listing.specs.Listing.{run_text};
ghost use Rattle.schedule.specs.Inside.{calls_in};

use entry::read;
use listing::{Shown, put_line};
use record::Record;
use run::{Party, party_in_16, take_turn};
use text::Text;

// The entries of a file, on a strip with every party idle. List, which has checked the file, calls it.
pub fn run_entries(entries: &[[u8; 8]], strip: &mut [u64], parties: u8, text: &mut Text)
    requires { (length entries.now ≤ 2048)
        × (parties ≤ 16)
        × Room (run_text (begin strip.old parties) 0 (calls_in entries.now)) text.old }
    ensures lines { Puts (run_text (begin strip.old parties) 0 (calls_in entries.now)) text.old text.new }
    ensures words { strip.new ≡ (end_from (begin strip.old parties) 0 (calls_in entries.now)).strip }
{
    // in fixed memory: a file has at most 16 parties
    let mut run = [Party {
        rec: Record::idle(),
        look: 0,
    }; 16];
    for (i, bytes) in entries.iter().enumerate() {
        // an entry is read at a place, as docs/PROMISES.md names it
        let e = read(bytes, 0);
        let p = party_in_16(e);
        let turn = take_turn(strip, parties, run[p], i as u32, e);
        run[p] = turn.party;
        put_line(text, i as u32, e, Shown::from(turn));
    }
}
