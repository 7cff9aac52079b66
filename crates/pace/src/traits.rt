// The two interfaces that the planner is proved against.
ghost use Rattle.std.specs.Prelude.{◌≡◌, ℕ, suc, ◌≤◌};
ghost use Rattle.pace.specs.declared.terms.Terms.{Terms};
ghost use Rattle.pace.specs.Moments.{Fit, capacity_of};

use crate::terms::Terms;

// No moment of a table is later.
pub(crate) const LATEST: u64 = 99_999_999_999;

// From this count on a table stays level.
pub(crate) const MOST_BLOCKS: u32 = 1_000_000;

// A table of moments, by a machine's terms and the count of a block.
pub trait Pace {
    // the moment at which a machine with these terms ends its k-th block
    ghost table: { Self → Terms → ℕ → ℕ };

    // The moment at which a machine with these terms ends its k-th block.
    fn moment(&self, terms: Terms, k: u32) -> u64
        ensures answers_by_the_table { result ≡ table self.now terms k };

    ghost no_block_ends_at_zero: { (s : Self) (t : Terms) → Fit t → table s t 0 ≡ 0 };

    ghost never_falls: { (s : Self) (t : Terms) (k : ℕ) → Fit t → table s t k ≤ table s t (suc k) };

    ghost within_the_latest_moment: { (s : Self) (t : Terms) (k : ℕ) → Fit t → table s t k ≤ 99999999999 };

    ghost level_from_a_million: { (s : Self) (t : Terms) (k : ℕ) → Fit t → 1000000 ≤ k → table s t k ≡ table s t 1000000 };
}

// A pace that can be asked back.
pub trait Meter: Pace {
    // How many k from 1 to 1,000,000 end no later than the moment.
    fn capacity(&self, terms: Terms, moment: u64) -> u32
        ensures counts_the_table { result ≡ capacity_of (Self.Pace.table self.now terms) moment };
}
