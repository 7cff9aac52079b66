// The planner: musters and books, and the calls that are put to them.
//
// A muster becomes an open book, an open book a settled one, and that an open one again. Each state is a type of its
// own that is moved by value, so a call that a state does not have does not compile. A call that may be refused
// answers by its first check that applies, and then leaves everything as it was.
#![tactic(auto)]

mod muster;
mod open_book;
mod settled_book;

pub use books::{Batch, Machine, Refusal};
pub use muster::Muster;
pub use open_book::OpenBook;
pub use settled_book::SettledBook;
