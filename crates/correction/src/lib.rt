// Between the first layer and the third: error correction, which puts misread bytes of a word right.
#![tactic(auto)]

pub mod correct;
pub mod locators;
