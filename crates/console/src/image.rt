// The bytes of an image as text: two digits to base 16 for each, `-` for none.
ghost use Rattle.std.specs.Prelude.{◌≡◌, ◌≤◌, ◌↔◌, min, length, take, IsOk, IfOk, IfErr};
ghost use Rattle.console.specs.Fields.{field_of, rest_of};
ghost use Rattle.console.specs.Image.{Spells, AreBytesNext};

use crate::answer::Unanswered;
use crate::line::Line;
use std::fmt;

// More bytes than the largest image has.
pub const MOST_BYTES: usize = 33_792;

impl Line<'_> {
    // The bytes of an image, into a room: how many.
    pub fn bytes(&mut self, room: &mut [u8]) -> Result<usize, Unanswered>
        ensures bound { IfOk result (λ count. count ≤ 33792) }
        ensures within { IfOk result (λ count. count ≤ length room.new) }
        ensures value { IfOk result (λ count. Spells (field_of self.old.text.now) (take count room.new)) }
        ensures given { IsOk result ↔ AreBytesNext (min 33792 (length room.old)) self.old.text.now }
        ensures rest { self.new.text.now ≡ rest_of self.old.text.now }
        ensures left { self.new.numbers ≡ self.old.numbers }
        ensures refused { IfErr result (λ e. e ≡ Unanswered.NoCall) }
    {
        let digits = self.field().ok_or(Unanswered::NoCall)?;
        if digits == b"-".as_slice() {
            return Ok(0);
        }
        let count = digits.len() / 2;
        if MOST_BYTES.min(room.len()) < count {
            return Err(Unanswered::NoCall);
        }
        hex::decode_to_slice(digits, &mut room[..count]).map_err(|_| Unanswered::NoCall)?;
        Ok(count)
    }
}

// The bytes of an image, a blank before them.
#[derive(Clone, Copy)]
pub struct Bytes<'a>(pub &'a [u8]);

impl fmt::Display for Bytes<'_> {
    fn fmt<W: fmt::Write>(&self, f: &mut fmt::Formatter<W>) -> fmt::Result {
        if self.0.is_empty() {
            return write!(f, " -");
        }
        write!(f, " ")?;
        for byte in self.0 {
            write!(f, "{byte:02x}")?;
        }
        Ok(())
    }
}
