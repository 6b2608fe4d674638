//! The memory's types, and in specs/ the rules of the memory and what they promise.
#![tactic(auto)]

mod block;
mod claims;
mod collector;
mod message;
mod refusal;
mod registers;
mod slot;
mod word;

pub use block::{Block, Colour, Entry, Hold};
pub use claims::{drained_in_any_order, layouts_are_lawful, scenarios_come_out};
pub use collector::{AtLevel, Collector, Phase, Stage, Status};
pub use message::Message;
pub use refusal::Refusal;
pub use registers::Registers;
pub use slot::Slot;
pub use word::Word;
