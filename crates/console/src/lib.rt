// The console of the programs that open the proved calls to text: a line of standard input, what its fields say, and what is written.
// Contracts say which fields, numbers and bytes are taken from a line; of reading and writing they say what is safe.
#![tactic(auto)]

mod ahead;
pub mod answer;
pub mod image;
pub mod input;
pub mod line;
pub mod number;
pub mod records;
#[cfg(test)]
mod tests;
