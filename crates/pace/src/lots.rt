// Blocks are sent in whole lots: a block ends when its lot does.
ghost use Rattle.std.specs.Prelude.{ℕ, suc, ◌*◌};
ghost use Rattle.std.proofs.Common.{ap, ◌∙◌, zero-mul, mul-le-mul_right, arith, rules};
ghost use Rattle.pace.specs.Moments.{lots_moment, rounded_up};
ghost use Prim.Native.Nat;
ghost use Rattle.pace.specs.Formulas.{rounded_zero, rounded_rises, times_within, rounded_below};

use crate::terms::Terms;
use crate::traits::{MOST_BLOCKS, Meter, Pace};

#[derive(Clone, Copy)]
pub struct Lots;

impl Pace for Lots {
    ghost table = { λ _. lots_moment };

    ghost no_block_ends_at_zero = { λ s t fit. ap (λ (n : ℕ). n * t.ticks) (rounded_zero (Nat.max t.lot 1) (omega arith)) ∙ zero-mul t.ticks };

    ghost never_falls = { λ s t k fit. mul-le-mul_right t.ticks (rounded_rises (Nat.max t.lot 1) (omega arith) (Nat.min k 1000000) (Nat.min (suc k) 1000000) (omega arith)) };

    ghost within_the_latest_moment = { λ s t k fit.
        omega (
          arith,
          times_within (rounded_up (Nat.min k 1000000) (Nat.max t.lot 1)) 1065534 t.ticks
              (omega (arith, fit.lot, rounded_below (Nat.max t.lot 1) (omega arith) (Nat.min k 1000000))) fit.ticks,
        ) };

    ghost level_from_a_million = { Prim.search rules };

    fn moment(&self, terms: Terms, k: u32) -> u64 {
        let lot = terms.lot.max(1) as u64;
        let lots = (k.min(MOST_BLOCKS) as u64).div_ceil(lot);
        lots * lot * terms.ticks as u64
    }
}

impl Meter for Lots {
    fn capacity(&self, terms: Terms, moment: u64) -> u32 {
        if terms.ticks == 0 {
            return MOST_BLOCKS;
        }
        let lot = terms.lot.max(1) as u64;
        let lots = moment / terms.ticks as u64 / lot;
        (lots * lot).min(MOST_BLOCKS as u64) as u32
    }
}
