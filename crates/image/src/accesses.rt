// A step's access made in the bytes of an image, and what follows it written in the party's record. Private to the crate.
ghost use Rattle.std.specs.Prelude.{◌≡◌, ◌+◌, ◌≤◌, length};
ghost use Rattle.format.specs.Format.{word_place, words_base};
ghost use Rattle.image.specs.Inside.{seen_at, LookMade, SwapMade};

use format::WORDS;
use format::fields::write_record;
use little::{number, put};
use party::Answer;
use record::Record;
use refusal::Refusal;
use stages::follow::looked;
use stages::{AfterLook, AfterSwap};
use word::{counter, raised, value};

// The named record as a step takes it, with its hint, for an image of this MAX, and where it stands. That it lies in
// the image is asked by each access, since it does not hold the image.
#[derive(Clone, Copy)]
pub struct Stepped {
    pub max: u16,
    pub at: usize,
    pub rec: Record,
}

fn look_in(image: &[u8], place: u32) -> u64
    requires { word_place words_base place + 8 ≤ length image.now }
    ensures { result ≡ seen_at image.now words_base place }
{
    number::<8>(image, WORDS + 8 * (place as usize))
}

impl Stepped {
    // A look, and what follows it. Step, which has checked the header, calls it.
    pub fn look(self, image: &mut [u8], place: u32, then: AfterLook) -> Result<Answer, Refusal>
        requires { (self.at + 32 ≤ length image.old) × (word_place words_base place + 8 ≤ length image.old) }
        ensures { LookMade image.old words_base self.at self.max self.rec place then result image.new }
    {
        let got = looked(self.max, self.rec, then, look_in(image, place));
        let answer = got.answer;
        write_record(image, self.at, got.rec);
        answer
    }

    // A swap that lost begins again; one that would win at the counter's end writes nothing; one that won writes word and record. Step,
    // which has checked the header, calls it.
    // What follows is written out here, not taken from step's `swapped`: the record then need not be built before it is known.
    pub fn swap(
        self,
        image: &mut [u8],
        place: u32,
        from: u64,
        to: u32,
        then: AfterSwap,
    ) -> Result<Answer, Refusal>
        requires { (self.at + 32 ≤ length image.old) × (word_place words_base place + 8 ≤ length image.old) }
        ensures { SwapMade image.old words_base self.at self.rec place from to then result image.new }
    {
        if look_in(image, place) != from {
            write_record(image, self.at, self.rec.begun_again());
            return Ok(Answer::GoesOn);
        }
        if counter(from) == u32::MAX {
            return Err(Refusal::CounterAtEnd);
        }
        put::<8>(image, WORDS + 8 * (place as usize), raised(from, to));
        match then {
            AfterSwap::Onward => {
                write_record(image, self.at, self.rec.at_stage(5));
                Ok(Answer::GoesOn)
            }
            AfterSwap::Push => {
                write_record(image, self.at, Record::idle());
                Ok(Answer::Pushed)
            }
            AfterSwap::Pop => {
                write_record(image, self.at, Record::idle());
                Ok(Answer::Popped(value(self.rec.first)))
            }
        }
    }
}
