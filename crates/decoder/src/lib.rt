// The fourth layer: the store of records (document 01's shelf) and the peeling decoder (its restorer).
#![tactic(auto)]

pub mod records;
pub mod restorer;
pub mod store;
