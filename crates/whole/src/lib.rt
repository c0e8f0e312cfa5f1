// Whole images: one read into a lent strip and a lent table, and one written from them. All checks come first, so a refusal writes
// nothing. The loops over the lent table are functions of their own; the work of a turn is done by value, in `pieces`.
#![tactic(auto)]

ghost use Rattle.std.specs.Prelude.{◌≡◌, ◌+◌, ◌*◌, ◌≤◌, length};
ghost use Rattle.std.proofs.lemmas.List.Edits.{sets};
ghost use Rattle.std.specs.declared.result.Result.TheVariants.{Err};
ghost use Rattle.logic.specs.Pick.{pick};
ghost use Rattle.refusal.specs.declared.Refusal.TheVariants.{NotValid};
ghost use Rattle.refusal.specs.Refusal.{passes};
ghost use Rattle.format.specs.Format.{word_place, words_base};
ghost use Rattle.format.specs.Spelling.{records_from};
ghost use Rattle.pieces.specs.Pieces.{all_below};
ghost use Rattle.header.specs.Header.{version_at};
ghost use Rattle.whole.specs.Whole.{is_valid_in, table_bytes, ReadPromise, WritePromise};

use pieces::reading::{read_refusal, read_strip, record_in};
use pieces::writing::{next_refusal, sizes_refusal, write_front, write_party};
use record::Record;
use refusal::Refusal;

// The records of the image, which stand after its words. No one function with pieces' read_strip: a trait of words and records, with a
// size, a reader and their laws, is longer than the two loops; nor is write_table one with pieces' write_words. What these ask is what pieces'
// functions ask, one record at a time.
fn read_table(image: &[u8], words: usize, table: &mut [Record])
    requires { word_place words_base words + 32 * length table.old ≤ length image.now }
    ensures { table.new ≡ records_from (version_at image.now) image.now (word_place words_base words) (length table.old) }
{
    for (party, r) in table.iter_mut().enumerate() {
        *r = record_in(image, words, party);
    }
}

// Read: every word and every record, or a refusal and nothing.
pub fn read(image: &[u8], strip: &mut [u64], table: &mut [Record]) -> Result<(), Refusal>
    ensures { ReadPromise image.now strip.old table.old result strip.new table.new }
{
    read_refusal(image, strip.len(), table.len())?;
    read_strip(image, strip);
    read_table(image, strip.len(), table);
    Ok(())
}

// NotValid where a record of the table is not valid for a strip of so many words.
fn table_refusal(words: usize, table: &[Record]) -> Result<(), Refusal>
    requires { (2 ≤ words) × (words ≤ 4096) }
    ensures { result ≡ pick (all_below (is_valid_in words table.now) (length table.now)) passes (Err NotValid) }
{
    let mut so_far = Ok(());
    for r in table {
        so_far = next_refusal(so_far, words, *r);
    }
    so_far
}

fn write_table(image: &mut [u8], words: usize, table: &[Record])
    requires { word_place words_base words + 32 * length table.now ≤ length image.old }
    ensures { image.new ≡ sets image.old (word_place words_base words) (table_bytes 1 table.now) }
{
    for (party, r) in table.iter().enumerate() {
        write_party(image, words, party, *r);
    }
}

// Write: every byte, or a refusal and nothing. No byte already there is looked at.
pub fn write(image: &mut [u8], strip: &[u64], table: &[Record]) -> Result<(), Refusal>
    ensures { WritePromise image.old strip.now table.now result image.new }
{
    sizes_refusal(image.len(), strip.len(), table.len())?;
    table_refusal(strip.len(), table)?;
    write_front(image, strip, table.len());
    write_table(image, strip.len(), table);
    Ok(())
}
