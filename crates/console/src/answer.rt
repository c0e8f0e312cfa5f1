// What a program does with a line: it answers, or says why it doesn't.
use std::io;

// Why a line has no answer of its own: it asks for no call that the program knows, and is answered `?`; or the program ends, since it
// cannot write.
#[derive(Debug, Drop)]
pub enum Unanswered {
    NoCall,
    Failed(io::Error),
}

// That a line is answered.
pub type Outcome = Result<(), Unanswered>;

impl From<io::Error> for Unanswered {
    fn from(e: io::Error) -> Unanswered {
        Unanswered::Failed(e)
    }
}
