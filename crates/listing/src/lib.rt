// The lines of a listing, each behind the text that was put before it, and each asking that there is room.
#![tactic(auto)]

ghost use Rattle.std.specs.Prelude.{◌≡◌, ◌++◌, ◌∷◌, []};
ghost use Rattle.text.specs.Writing.{Room, Puts};
ghost use Rattle.entry.specs.Entry.{asked_of};
ghost use Rattle.listing.specs.Told.{shown_effect, shown_of, shown_text};
ghost use Rattle.run.specs.declared.Turn.{Turn};
ghost use Rattle.listing.specs.Listing.{header_text, word_text, words_text, cells_text};

use entry::{Entry, party_of};
use party::{carried, number};
use run::Turn;
use text::Text;
use word::{counter, value};

// What a line shows of an entry's turn: any number, any order beside it, and the effect, where there is one, whatever the number.
#[derive(Clone, Copy)]
pub struct Shown {
    pub number: u32,
    pub carried: u32,
    pub effect: Option<u32>,
}

impl From<Turn> for Shown {
    ghost from_gives = { λ turn shown. shown ≡ shown_of turn };

    fn from(turn: Turn) -> Shown {
        Shown {
            number: number(turn.answer),
            carried: carried(turn.answer),
            effect: turn.effect,
        }
    }
}

// The entry where an operation took effect, or "-".
fn put_effect(text: &mut Text, effect: Option<u32>)
    requires { Room (shown_effect effect) text.old }
    ensures { Puts (shown_effect effect) text.old text.new }
{
    match effect {
        Some(entry) => text.put_decimal(entry),
        None => text.put_byte(b'-'),
    }
}

// Entry, party, number, carried order, effect. Public for the schedule, which knows that there is room.
pub fn put_line(text: &mut Text, entry: u32, e: Entry, shown: Shown)
    requires { Room (shown_text entry (asked_of e) shown) text.old }
    ensures { Puts (shown_text entry (asked_of e) shown) text.old text.new }
{
    text.put_decimal(entry);
    text.put_spaced(party_of(e) as u32);
    text.put_spaced(shown.number);
    text.put_spaced(shown.carried);
    text.put_byte(b' ');
    put_effect(text, shown.effect);
    text.put_byte(b'\n');
}

// MAX, divide, parties. Public for the schedule, which knows that there is room.
pub fn put_header(text: &mut Text, max: u16, divide: u16, parties: u8)
    requires { Room (header_text max divide parties) text.old }
    ensures { Puts (header_text max divide parties) text.old text.new }
{
    text.put_text(b"strip");
    text.put_spaced(max as u32);
    text.put_spaced(divide as u32);
    text.put_text(b" parties");
    text.put_spaced(parties as u32);
    text.put_byte(b'\n');
}

// Value and counter of a word.
fn put_word(text: &mut Text, word: u64)
    requires { Room (word_text word) text.old }
    ensures { Puts (word_text word) text.old text.new }
{
    text.put_spaced(value(word));
    text.put_byte(b'.');
    text.put_decimal(counter(word));
}

fn put_words(text: &mut Text, strip: &[u64])
    requires { Room (words_text strip.now) text.old }
    ensures { Puts (words_text strip.now) text.old text.new }
{
    for word in strip {
        put_word(text, *word);
    }
    text.put_byte(b'\n');
}

// The last line: every word of the strip. Public for the schedule, which knows that there is room.
pub fn put_cells(text: &mut Text, strip: &[u64])
    requires { Room (cells_text strip.now) text.old }
    ensures { Puts (cells_text strip.now) text.old text.new }
{
    text.put_text(b"cells");
    put_words(text, strip);
}
