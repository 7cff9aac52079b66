// When a machine ends its k-th block, and how many blocks it ends by a moment.
//
// A pace is a fixed table from a machine's terms and a count k to the moment at which such a machine ends
// its k-th block. A meter is a pace that can also be asked back: how many blocks end by a moment.
#![tactic(auto)]

mod backlog;
mod even;
mod lots;
mod terms;
mod traits;

pub use backlog::Backlog;
pub use even::Even;
pub use lots::Lots;
pub use terms::Terms;
pub use traits::{Meter, Pace};
