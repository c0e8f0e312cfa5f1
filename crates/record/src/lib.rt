// The record of a party's operation: the operations and their sides, the record and its makers, and when it is valid.
#![tactic(auto)]

pub mod make;
pub mod side;
pub mod valid;

// The record of a party, as wide as in the image. Operation and stage are numbers and no enums, since step and withdraw take any record:
// one whose numbers are none of these is refused as not valid. MAX is handed beside it, since it is the strip's: docs/PROMISES.md names the
// calls that take both.
#[derive(Clone, Copy)]
pub struct Record {
    pub operation: u8,
    pub stage: u8,
    pub k: u16,
    pub v: u32,
    pub first: u64,
    pub second: u64,
}
