// For programs and tests, which have a heap: a graph as a card image, and a workspace with its memory and its questions as values.
#![tactic(auto)]

mod desk;
mod hashing;
mod packing;

pub use desk::{Desk, JUNK, Question, ask_over_junk};
pub use hashing::hash;
pub use packing::pack;
