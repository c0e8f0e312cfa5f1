// The records that the calls make. No other place builds one.
ghost use Rattle.std.specs.Prelude.{◌≡◌};
ghost use Rattle.record.specs.Record.{idle, begun, again, at_stage, with_place, with_first, with_second};

use crate::Record;

impl Record {
    pub fn idle() -> Record
        ensures { result ≡ idle }
    {
        Record {
            operation: 0,
            stage: 0,
            k: 0,
            v: 0,
            first: 0,
            second: 0,
        }
    }

    pub fn begun(operation: u8, v: u32) -> Record
        ensures { result ≡ begun operation v }
    {
        Record {
            operation,
            stage: 1,
            v,
            ..Record::idle()
        }
    }

    pub fn begun_again(self) -> Record
        ensures { result ≡ again self }
    {
        Record::begun(self.operation, self.v)
    }

    pub fn at_stage(self, stage: u8) -> Record
        ensures { result ≡ at_stage stage self }
    {
        Record { stage, ..self }
    }

    pub fn with_place(self, k: u16) -> Record
        ensures { result ≡ with_place k self }
    {
        Record { k, ..self }
    }

    pub fn with_first(self, first: u64) -> Record
        ensures { result ≡ with_first first self }
    {
        Record { first, ..self }
    }

    pub fn with_second(self, second: u64) -> Record
        ensures { result ≡ with_second second self }
    {
        Record { second, ..self }
    }
}
