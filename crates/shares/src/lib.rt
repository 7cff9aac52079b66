// A book's blocks, shared out among the machines that hold them.
#![tactic(auto)]

mod linking;
mod mark;
mod plan;
mod reach;
mod station;

pub use mark::Mark;
pub use plan::Plan;
