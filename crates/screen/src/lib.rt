// Below the third layer: letters, the screen over the packed bases, and the card's limits.
#![tactic(auto)]

pub mod letters;
pub mod limits;
mod packed;
pub mod screen;
