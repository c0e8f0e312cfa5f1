// The numbers of a line, and those that are written.
ghost use Rattle.std.specs.Prelude.{◌≡◌, ◌+◌, ◌^◌, ◌≤◌, ◌↔◌, min, true, length, take, replicate, IsSome, IfSome, OnSome, IsOk, IfOk, OnOk, IfErr, OnErr};
ghost use Rattle.std.specs.List.{list_all};
ghost use Rattle.refusal.specs.Refusal.{check_number};
ghost use Rattle.console.specs.Fields.{is_blank, field_of, rest_of};
ghost use Rattle.console.specs.Numbers.{longer, number_of, IsNumberNext, IsBelowNext, AreBelowNext, AreNumbers, Reads};

use crate::answer::{Outcome, Unanswered};
use crate::line::Line;
use refusal::Refusal;
use std::fmt;

// A number with one more digit, below 2^64.
fn longer(value: u64, b: u8) -> Option<u64>
    ensures { result ≡ longer value b }
{
    let digit = char::from(b).to_digit(10)?;
    value.checked_mul(10)?.checked_add(u64::from(digit))
}

// Not parse, which takes a sign.
fn number_of(field: &[u8]) -> Option<u64>
    ensures { result ≡ number_of field.now }
{
    let mut value = 0;
    for b in field {
        value = longer(value, *b)?;
    }
    Some(value)
}

// A number in a type that it fits.
pub(crate) fn narrow<T: TryFrom<u64>>(number: u64) -> Result<T, Unanswered>
where
    T::Error: Drop,
    ensures ok { IfOk result (λ fitting. T.try_from_gives number (Ok fitting)) }
    ensures err { OnErr result ((e : T.Error) × T.try_from_gives number (Err e)) }
    ensures refused { IfErr result (λ e. e ≡ Unanswered.NoCall) }
{
    T::try_from(number).map_err(|_| Unanswered::NoCall)
}

impl Line<'_> {
    // The next field as a number. Whatever it is, it is taken.
    fn try_number(&mut self) -> Option<u64>
        ensures value { IfSome result (λ n. number_of (field_of self.old.text.now) ≡ Some n) }
        ensures given { IsSome result ↔ IsNumberNext self.old.numbers self.old.text.now }
        ensures rest { self.new.text.now ≡ rest_of self.old.text.now }
        ensures left { OnSome result (self.new.numbers + 1 ≡ self.old.numbers) }
    {
        let field = self.field()?;
        if self.numbers == 0 {
            return None;
        }
        self.numbers -= 1;
        number_of(field)
    }

    pub fn number(&mut self) -> Result<u64, Unanswered>
        ensures value { IfOk result (λ n. number_of (field_of self.old.text.now) ≡ Some n) }
        ensures given { IsOk result ↔ IsNumberNext self.old.numbers self.old.text.now }
        ensures rest { self.new.text.now ≡ rest_of self.old.text.now }
        ensures left { OnOk result (self.new.numbers + 1 ≡ self.old.numbers) }
        ensures refused { IfErr result (λ e. e ≡ Unanswered.NoCall) }
    {
        self.try_number().ok_or(Unanswered::NoCall)
    }

    // A number that is kept, of up to 32 bits.
    pub fn order(&mut self) -> Result<u32, Unanswered>
        ensures value { IfOk result (λ n. number_of (field_of self.old.text.now) ≡ Some n) }
        ensures given { IsOk result ↔ IsBelowNext (2 ^ 32) self.old.numbers self.old.text.now }
        ensures rest { self.new.text.now ≡ rest_of self.old.text.now }
        ensures left { OnOk result (self.new.numbers + 1 ≡ self.old.numbers) }
        ensures refused { IfErr result (λ e. e ≡ Unanswered.NoCall) }
    {
        narrow(self.number()?)
    }

    // A number that is compared and not kept: what lies beyond 32 bits lies beyond every range, as the largest does.
    pub fn compared(&mut self) -> Result<u32, Unanswered>
        ensures value { IfOk result (λ n. IfSome (number_of (field_of self.old.text.now)) (λ m. n ≡ min m 4294967295)) }
        ensures given { IsOk result ↔ IsNumberNext self.old.numbers self.old.text.now }
        ensures rest { self.new.text.now ≡ rest_of self.old.text.now }
        ensures left { OnOk result (self.new.numbers + 1 ≡ self.old.numbers) }
        ensures refused { IfErr result (λ e. e ≡ Unanswered.NoCall) }
    {
        Ok(u32::try_from(self.number()?).unwrap_or(u32::MAX))
    }

    // A count of at most so many.
    pub fn count(&mut self, most: usize) -> Result<usize, Unanswered>
        ensures value { IfOk result (λ n. number_of (field_of self.old.text.now) ≡ Some n) }
        ensures bound { IfOk result (λ n. n ≤ most) }
        ensures given { IsOk result ↔ IsBelowNext (most + 1) self.old.numbers self.old.text.now }
        ensures rest { self.new.text.now ≡ rest_of self.old.text.now }
        ensures left { OnOk result (self.new.numbers + 1 ≡ self.old.numbers) }
        ensures refused { IfErr result (λ e. e ≡ Unanswered.NoCall) }
    {
        let count = usize::try_from(self.number()?).unwrap_or(usize::MAX);
        if most < count {
            return Err(Unanswered::NoCall);
        }
        Ok(count)
    }

    // Words of a strip, as many as there is room for.
    pub fn words(&mut self, room: &mut [u64]) -> Result<(), Unanswered>
        ensures given { IsOk result ↔ AreBelowNext (replicate (length room.old) (2 ^ 64)) self.old.numbers self.old.text.now }
        ensures value { OnOk result (Reads self.old.text.now room.new self.new.text.now) }
        ensures left { OnOk result (self.new.numbers + length room.old ≡ self.old.numbers) }
        ensures refused { IfErr result (λ e. e ≡ Unanswered.NoCall) }
    {
        for word in room.iter_mut() {
            *word = self.number()?;
        }
        Ok(())
    }

    // The words of a strip, to the end of the line: how many.
    pub fn last_words(&mut self, room: &mut [u64]) -> Result<usize, Unanswered>
        ensures all { OnOk result (list_all is_blank self.new.text.now ≡ true) }
        ensures bound { IfOk result (λ count. count ≤ self.old.numbers) }
        ensures within { IfOk result (λ count. count ≤ length room.new) }
        ensures value { IfOk result (λ count. Reads self.old.text.now (take count room.new) self.new.text.now) }
        ensures words { IfOk result (λ count. AreBelowNext (replicate count (2 ^ 64)) self.old.numbers self.old.text.now) }
        ensures given { IsOk result ↔ AreNumbers (min self.old.numbers (length room.old)) self.old.text.now }
        ensures left { IfOk result (λ count. self.new.numbers + count ≡ self.old.numbers) }
        ensures refused { IfErr result (λ e. e ≡ Unanswered.NoCall) }
    {
        for (taken, word) in room.iter_mut().enumerate() {
            if self.is_done() {
                return Ok(taken);
            }
            *word = self.number()?;
        }
        self.end()?;
        Ok(room.len())
    }

    // That no field is left.
    pub fn end(&self) -> Outcome
        ensures given { IsOk result ↔ (list_all is_blank self.now.text.now ≡ true) }
        ensures refused { IfErr result (λ e. e ≡ Unanswered.NoCall) }
    {
        self.is_done().then_some(()).ok_or(Unanswered::NoCall)
    }
}

// The number of what a call says that hands on nothing: 0 where it passes.
pub fn check_number(check: Result<(), Refusal>) -> u32
    ensures { result ≡ check_number check }
{
    check.err().map_or(0, Refusal::number)
}

// The words of a strip, a blank before each.
#[derive(Clone, Copy)]
pub struct Words<'a>(pub &'a [u64]);

impl fmt::Display for Words<'_> {
    fn fmt<W: fmt::Write>(&self, f: &mut fmt::Formatter<W>) -> fmt::Result {
        for word in self.0 {
            write!(f, " {word}")?;
        }
        Ok(())
    }
}
