// The sums that a report prints.
ghost use Rattle.std.specs.Prelude.{◌≡◌, ◌≤◌, ◌↔◌, length, IsTrue, All, sum_by};
ghost use Rattle.pace.specs.Moments.{capacity_of};
ghost use Rattle.places.specs.Has.{has};
ghost use Rattle.books.specs.Ranges.{blocks_in};
ghost use Rattle.report.specs.Sets.{Just, Counted};

use pace::Meter;
use places::Places;
use planner::{Batch, Machine};

// The blocks of all batches with just these holders.
pub(crate) fn blocks_of_set(batches: &[Batch], holders: Places) -> u32
    requires few { blocks_in batches.now ≤ 1000000 }
    ensures counts_the_batches_with_just_these_holders { Counted (has holders) batches.now result }
{
    batches
        .iter()
        .filter(|batch| batch.holders == holders)
        .map(|batch| batch.blocks)
        .sum()
}

// The capacities of all machines together.
pub(crate) fn all_capacities<M: Meter>(meter: &M, machines: &[Machine], moment: u64) -> u64
    requires few { length machines.now ≤ 32 }
    ensures adds_the_capacities { result ≡ sum_by (λ m. capacity_of (M.Pace.table meter.now m.terms) moment) machines.now }
{
    machines
        .iter()
        .map(|machine| u64::from(meter.capacity(machine.terms, moment)))
        .sum()
}

// The blocks of all batches.
pub(crate) fn all_blocks(batches: &[Batch]) -> u64
    requires few { blocks_in batches.now ≤ 1000000 }
    ensures adds_the_blocks { result ≡ blocks_in batches.now }
{
    batches.iter().map(|batch| u64::from(batch.blocks)).sum()
}

// Whether none of the batches has just these holders.
pub(crate) fn is_new(batches: &[Batch], holders: Places) -> bool
    ensures tells_whether_no_batch_has_just_these_holders { IsTrue result ↔ All (λ b. ¬ Just (has holders) b) batches.now }
{
    batches.iter().all(|batch| batch.holders != holders)
}
