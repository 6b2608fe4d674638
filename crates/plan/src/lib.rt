// Plans: trees of areas read out of six-byte records.
#![tactic(auto)]

mod accepted;
mod area;
mod make;
mod queries;
mod reading;
mod refusal;
mod tree;

pub use accepted::Plan;
pub use area::{Area, Place, Slots};
pub use refusal::Refusal;
