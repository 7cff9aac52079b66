// The plain tables behind musters and books: machines, batches, refusals, the lookup by number, and the calls on
// what stands, whatever the pace.
#![tactic(auto)]

mod batch;
mod book;
mod edit;
mod lookup;
mod machine;
mod refusal;
mod roster;

pub use batch::Batch;
pub use book::Book;
pub use machine::Machine;
pub use refusal::Refusal;
pub use roster::Roster;
