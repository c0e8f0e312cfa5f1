// A whole image piece by piece: what reading and writing one do without its table. All are public for the two calls on whole images,
// which check the lengths first: those that look at bytes ask that they lie inside. No type holds what they ask: docs/PROMISES.md names
// them with it, and such a type would ask more.
#![tactic(auto)]

pub mod reading;
#[cfg(test)]
mod tests;
pub mod writing;
