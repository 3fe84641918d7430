// The C forms of the card reader, the card cutter, the writer, the seed at a position, the choice between two calls, storing, restoring,
// dealing and undealing. The read check's is exported by the crate strand_c.
#![tactic(auto)]

pub mod c_forms;
