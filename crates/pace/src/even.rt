// Every block takes the machine's ticks.
ghost use Rattle.pace.specs.Moments.{even_moment};
ghost use Prim.Native.Nat;
ghost use Rattle.std.proofs.Common.{arith, rules};
ghost use Rattle.pace.specs.Formulas.{times_within};

use crate::terms::Terms;
use crate::traits::{MOST_BLOCKS, Meter, Pace};

#[derive(Clone, Copy)]
pub struct Even;

impl Pace for Even {
    ghost table = { λ _. even_moment };

    ghost no_block_ends_at_zero = { Prim.search rules };

    ghost never_falls = { Prim.search rules };

    ghost within_the_latest_moment = { λ s t k fit. omega (arith, times_within (Nat.min k 1000000) 1000000 t.ticks (omega arith) fit.ticks) };

    ghost level_from_a_million = { Prim.search rules };

    fn moment(&self, terms: Terms, k: u32) -> u64 {
        k.min(MOST_BLOCKS) as u64 * terms.ticks as u64
    }
}

impl Meter for Even {
    fn capacity(&self, terms: Terms, moment: u64) -> u32 {
        if terms.ticks == 0 {
            return MOST_BLOCKS;
        }
        (moment / terms.ticks as u64).min(MOST_BLOCKS as u64) as u32
    }
}
