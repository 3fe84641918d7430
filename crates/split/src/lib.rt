// Above the third layer: splitting a job by schedule position, so that no seed is printed twice.
#![tactic(auto)]

pub mod seed_position;
