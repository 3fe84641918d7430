// The third layer: the read check with its C form, and the writer.
#![tactic(auto)]

pub mod c_form;
pub mod droplet_bytes;
pub mod read_check;
pub mod writer;
