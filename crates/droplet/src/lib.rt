// The second layer: the pool card, and the droplet that a seed picks under it.
#![tactic(auto)]

pub mod card;
pub mod card_cutter;
pub mod droplet;
pub mod refusal;
pub mod weights;
