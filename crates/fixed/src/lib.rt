// A list of at most N items that lies in place, so that keeping it never wants memory. Its value is all its slots: a list
// that is the very same is so in the unused ones too. Of the kit's `ArrayVec` a contract sees the items alone.
#![tactic(auto)]

mod list;

pub use list::FixedVec;
