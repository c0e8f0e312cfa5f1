// A record as six numbers, and a table as records after their count. No other place of the text doors names a record's fields.
ghost use Rattle.std.specs.Prelude.{◌≡◌, ◌+◌, ◌-◌, ◌*◌, ◌≤◌, ◌↔◌, length, take, IsOk, IfOk, OnOk, IfErr, IfSome};
ghost use Rattle.std.specs.List.{flat_map};
ghost use Rattle.console.specs.Fields.{field_of, rest_of};
ghost use Rattle.console.specs.Numbers.{number_of, IsBelowNext, AreBelowNext, Reads};
ghost use Rattle.console.specs.Records.{numbers_of, record_bounds, table_bounds};

use crate::answer::Unanswered;
use crate::line::Line;
use crate::number::narrow;
use record::Record;
use std::fmt;

// One record more than a table may have, so that a table that is too long can be shown.
pub const MOST_RECORDS: usize = 17;

impl Line<'_> {
    // Six numbers, which fit a record's fields.
    pub fn record(&mut self) -> Result<Record, Unanswered>
        ensures given { IsOk result ↔ AreBelowNext record_bounds self.old.numbers self.old.text.now }
        ensures value { IfOk result (λ r. Reads self.old.text.now (numbers_of r) self.new.text.now) }
        ensures left { OnOk result (self.new.numbers + 6 ≡ self.old.numbers) }
        ensures refused { IfErr result (λ e. e ≡ Unanswered.NoCall) }
    {
        Ok(Record {
            operation: narrow(self.number()?)?,
            stage: narrow(self.number()?)?,
            k: narrow(self.number()?)?,
            v: narrow(self.number()?)?,
            first: self.number()?,
            second: self.number()?,
        })
    }

    // Records, as many as there is room for.
    fn records(&mut self, room: &mut [Record]) -> Result<(), Unanswered>
        ensures given { IsOk result ↔ AreBelowNext (table_bounds (length room.old)) self.old.numbers self.old.text.now }
        ensures value { OnOk result (Reads self.old.text.now (flat_map numbers_of room.new) self.new.text.now) }
        ensures left { OnOk result (self.new.numbers + 6 * length room.old ≡ self.old.numbers) }
        ensures refused { IfErr result (λ e. e ≡ Unanswered.NoCall) }
    {
        for rec in room.iter_mut() {
            *rec = self.record()?;
        }
        Ok(())
    }

    // The records of a table, after their count, into a room: how many.
    pub fn table(&mut self, room: &mut [Record; MOST_RECORDS]) -> Result<usize, Unanswered>
        ensures bound { IfOk result (λ count. count ≤ 17) }
        ensures count { IfOk result (λ count. number_of (field_of self.old.text.now) ≡ Some count) }
        ensures value { IfOk result (λ count. Reads (rest_of self.old.text.now) (flat_map numbers_of (take count room.new)) self.new.text.now) }
        ensures given { IsOk result ↔ (IsBelowNext 18 self.old.numbers self.old.text.now
            × IfSome (number_of (field_of self.old.text.now)) (λ count. AreBelowNext (table_bounds count) (self.old.numbers - 1) (rest_of self.old.text.now))) }
        ensures left { IfOk result (λ count. self.new.numbers + 6 * count + 1 ≡ self.old.numbers) }
        ensures refused { IfErr result (λ e. e ≡ Unanswered.NoCall) }
    {
        let count = self.count(MOST_RECORDS)?;
        self.records(&mut room[..count])?;
        Ok(count)
    }
}

// Records, a blank before each number.
#[derive(Clone, Copy)]
pub struct Records<'a>(pub &'a [Record]);

impl fmt::Display for Records<'_> {
    fn fmt<W: fmt::Write>(&self, f: &mut fmt::Formatter<W>) -> fmt::Result {
        for r in self.0 {
            let Record {
                operation,
                stage,
                k,
                v,
                first,
                second,
            } = *r;
            write!(f, " {operation} {stage} {k} {v} {first} {second}")?;
        }
        Ok(())
    }
}
