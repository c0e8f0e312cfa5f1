// The format of an image: its header, where each thing stands, a record in its bytes, a fresh one. All is public for the calls on
// images, which have checked what these ask.
#![tactic(auto)]

pub mod fields;
pub mod fresh;
pub mod gate;

// Where the words begin.
pub const WORDS: usize = 8;

// What a header says that is taken.
#[derive(Clone, Copy)]
pub struct Header {
    pub version: u16,
    pub max: u16,
    pub parties: u8,
}

// Of a named party that no check refuses: the image's MAX, and where its record stands.
#[derive(Clone, Copy)]
pub struct Named {
    pub max: u16,
    pub at: usize,
}
