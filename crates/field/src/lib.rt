// The lowest layer: the copying of bytes and the number that four of them spell, the generator and its seed schedule, and the field of 256 elements.
#![tactic(auto)]

pub mod bytes;
pub mod check_bytes;
mod check_four;
pub mod generator;
pub mod polynomial;
