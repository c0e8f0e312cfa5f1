// What writing a whole image does without its table: the sizes, the header and the words, and one record by value.
// Public for the calls on whole images: past the checks, these ask that the bytes lie inside.
ghost use Rattle.std.specs.Prelude.{◌≡◌, not, ◌+◌, ◌*◌, ◌≤◌, length};
ghost use Rattle.std.proofs.lemmas.List.Edits.{sets};
ghost use Rattle.std.specs.declared.result.Result.TheVariants.{Err};
ghost use Rattle.logic.specs.Pick.{pick};
ghost use Rattle.refusal.specs.declared.Refusal.TheVariants.{WrongSize, NotValid};
ghost use Rattle.refusal.specs.Refusal.{passes};
ghost use Rattle.record.specs.Valid.{valid_of};
ghost use Rattle.step.specs.Step.{max_of};
ghost use Rattle.format.specs.Format.{word_place, words_base, record_place};
ghost use Rattle.format.specs.Spelling.{word_bytes};
ghost use Rattle.format.specs.Fresh.{header_bytes};
ghost use Rattle.pieces.specs.Pieces.{sizes_agree, party_bytes};

use crate::reading::lent_fits;
use format::WORDS;
use format::fields::write_record;
use format::fresh::lay_header;
use little::put;
use record::Record;
use refusal::{Reason, Refusal};

// The sizes alone: no byte is looked at.
pub fn sizes_refusal(bytes: usize, words: usize, parties: usize) -> Result<(), Refusal>
    ensures { result ≡ pick (not (sizes_agree bytes words parties)) (Err WrongSize) passes }
{
    if !lent_fits(words, parties) {
        return Err(Refusal::WrongSize);
    }
    if bytes != WORDS + 8 * words + 32 * parties {
        return Err(Refusal::WrongSize);
    }
    Ok(())
}

// What the records so far are refused for, and NotValid from the first on that is not valid. Public for write, which calls it past its
// check of the sizes. It takes what came before, not `?` at each record: docs/PROMISES.md names it, and write_a_record_not_valid forgets.
pub fn next_refusal<E: Reason>(so_far: Result<(), E>, words: usize, r: Record) -> Result<(), E>
    requires { (2 ≤ words) × (words ≤ 4096) }
    ensures { result ≡ pick (valid_of (max_of words) r) so_far (Err (E.reason_of NotValid)) }
{
    if !r.is_valid((words - 2) as u16) {
        return Err(E::from_refusal(Refusal::NotValid));
    }
    so_far
}

fn write_words(image: &mut [u8], strip: &[u64])
    requires { word_place words_base (length strip.now) ≤ length image.old }
    ensures { image.new ≡ sets image.old words_base (word_bytes strip.now) }
{
    for (i, word) in strip.iter().enumerate() {
        put::<8>(image, WORDS + 8 * i, *word);
    }
}

// The header and the words. Public for write, which calls it past its checks.
pub fn write_front(image: &mut [u8], strip: &[u64], parties: usize)
    requires { (word_place words_base (length strip.now) ≤ length image.old) × ((2 ≤ length strip.now) × ((length strip.now ≤ 4096) × (parties ≤ 16))) }
    ensures { image.new ≡ sets (sets image.old 0 (header_bytes 1 (max_of (length strip.now)) parties)) words_base (word_bytes strip.now) }
{
    lay_header(image, 1, (strip.len() - 2) as u16, parties as u8);
    write_words(image, strip);
}

// A party's 32 bytes, behind so many words. Public for write, which calls it past its checks.
pub fn write_party(image: &mut [u8], words: usize, party: usize, r: Record)
    requires { record_place (word_place words_base words) party + 32 ≤ length image.old }
    ensures { image.new ≡ sets image.old (record_place (word_place words_base words) party) (party_bytes 1 r) }
{
    let at = WORDS + 8 * words + 32 * party;
    write_record(image, at, r);
    put::<8>(image, at + 24, 0);
}
