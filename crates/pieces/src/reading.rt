// What reading a whole image does without its table: the checks, the words, and one record by value.
// Public for the calls on whole images: past the checks, these ask that the bytes lie inside.
ghost use Rattle.std.specs.Prelude.{◌≡◌, ◌+◌, ◌*◌, ◌≤◌, length};
ghost use Rattle.format.specs.Format.{word_place, record_place, length_of, words_base, records_base};
ghost use Rattle.format.specs.Spelling.{words_from, record_at};
ghost use Rattle.header.specs.Header.{version_at};
ghost use Rattle.pieces.specs.Pieces.{all_below, lent_fits, is_sound, read_refusal};

use call::table_fits;
use format::WORDS;
use format::fields::{is_spare, read_record};
use format::gate::read_header;
use little::number;
use record::Record;
use refusal::Refusal;
use step::strip_fits;

// The strip and the table that a caller lends, for reading and for writing. Two sizes and no type of them: docs/PROMISES.md names the
// functions that take both.
pub fn lent_fits(words: usize, parties: usize) -> bool
    ensures { result ≡ lent_fits words parties }
{
    strip_fits(words) & table_fits(parties)
}

fn is_sound(image: &[u8], max: u16, party: usize) -> bool
    requires { record_place (records_base (version_at image.now) max) party + 32 ≤ length image.now }
    ensures { result ≡ is_sound image.now max party }
{
    let at = WORDS + 8 * (max as usize + 2) + 32 * party;
    is_spare(image, at) & read_record(image, at).is_valid(max)
}

fn are_sound(image: &[u8], max: u16, parties: u8) -> bool
    requires { length_of (version_at image.now) max parties ≤ length image.now }
    ensures { result ≡ all_below (is_sound image.now max) parties }
{
    (0..parties as usize).all(|party| is_sound(image, max, party))
}

// All checks of reading, before anything is written.
pub fn read_refusal(image: &[u8], words: usize, parties: usize) -> Result<(), Refusal>
    ensures { result ≡ read_refusal image.now words parties }
{
    if !lent_fits(words, parties) {
        return Err(Refusal::WrongSize);
    }
    let h = read_header(image)?;
    if !((words == h.max as usize + 2) & (parties == h.parties as usize)) {
        return Err(Refusal::WrongSize);
    }
    if !are_sound(image, h.max, h.parties) {
        return Err(Refusal::NotValid);
    }
    Ok(())
}

// The words. Public for read, which calls it past its checks.
pub fn read_strip(image: &[u8], strip: &mut [u64])
    requires { word_place words_base (length strip.old) ≤ length image.now }
    ensures { strip.new ≡ words_from image.now words_base (length strip.old) }
{
    for (i, word) in strip.iter_mut().enumerate() {
        *word = number::<8>(image, WORDS + 8 * i);
    }
}

// A party's record, behind so many words. Public for read, which calls it past its checks.
pub fn record_in(image: &[u8], words: usize, party: usize) -> Record
    requires { record_place (word_place words_base words) party + 32 ≤ length image.now }
    ensures { result ≡ record_at (version_at image.now) image.now (record_place (word_place words_base words) party) }
{
    read_record(image, WORDS + 8 * words + 32 * party)
}
