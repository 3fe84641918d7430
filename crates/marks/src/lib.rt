// Below the fourth layer: eight marks to a byte. Each segment of a pool has a mark, 1 if it is present and 0 if it is missing.
#![tactic(auto)]

pub mod bits;
