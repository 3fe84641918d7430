// Above the second layer: interleaving a file before it is cut into segments, and its inverse.
#![tactic(auto)]

pub mod file;
mod moves;
