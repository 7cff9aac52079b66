// A batch of equal blocks, and the machines that hold it.
ghost use Rattle.std.specs.Prelude.{◌≡◌, not, ◌&&◌, is_ok, if◌then◌else◌, Some, None};
ghost use Rattle.books.specs.Numbers.{bad_batch_number, bad_blocks};
ghost use Rattle.books.specs.Refusals.{refusal_in};

use crate::lookup::Numbered;
use crate::refusal::{Refusal, check_range};
use places::Places;

#[derive(Clone, Copy, Debug, Default)]
pub struct Batch {
    pub number: u32,
    pub blocks: u32,
    // the places of its holders among the book's machines
    pub holders: Places,
}

impl Numbered for Batch {
    ghost key = { λ b. b.number };

    fn number(&self) -> u32 {
        self.number
    }
}

// The checks of the batch number and the blocks that are handed in.
pub(crate) fn check_batch(batch: u32, blocks: u32) -> Result<(), Refusal>
    ensures refuses_by_the_first_range { refusal_in result ≡ (if bad_batch_number batch then Some Refusal.BatchNumber else if bad_blocks blocks then Some Refusal.Blocks else None) }
    ensures passes_just_what_is_in_range { is_ok result ≡ (not (bad_batch_number batch) && not (bad_blocks blocks)) }
{
    check_range(batch, 1, 99_999, Refusal::BatchNumber)?;
    check_range(blocks, 1, 99_999, Refusal::Blocks)
}
