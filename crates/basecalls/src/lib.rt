// Above the third layer: of two base callers' calls of one ordered strand, the one to read.
#![tactic(auto)]

mod call;
pub mod choice;
