// A pace over another: the backlog comes before the first block.
ghost use Rattle.std.specs.Prelude.{◌≡◌, ◌<◌, ◌≤◌};
ghost use Rattle.pace.specs.Moments.{backlog_moment, capacity_of};
ghost use Rattle.std.proofs.Common.{rules};

use crate::terms::Terms;
use crate::traits::{LATEST, MOST_BLOCKS, Meter, Pace};

#[derive(Clone, Copy)]
pub struct Backlog<P>(pub P);

impl<P: Pace> Pace for Backlog<P> {
    ghost table = { λ s. backlog_moment (P.Pace.table s.0) };

    ghost no_block_ends_at_zero = { Prim.search rules };

    ghost never_falls = { Prim.search rules };

    ghost within_the_latest_moment = { Prim.search rules };

    ghost level_from_a_million = { Prim.search rules };

    fn moment(&self, terms: Terms, k: u32) -> u64 {
        if k == 0 {
            return 0;
        }
        LATEST.min(self.0.moment(terms, k) + terms.backlog as u64)
    }
}

impl<P: Meter> Meter for Backlog<P> {
    // A moment before the backlog leaves no time at all, and every block ends by the latest moment.
    fn capacity(&self, terms: Terms, moment: u64) -> u32
        ensures counts_the_table { result ≡ capacity_of (backlog_moment (P.Pace.table self.now.0) terms) moment }
        ensures is_none_before_the_backlog { moment < terms.backlog → result ≡ 0 }
        ensures is_all_from_the_latest_moment_on { 99999999999 ≤ moment → result ≡ 1000000 }
    {
        let backlog = terms.backlog as u64;
        if moment >= LATEST {
            MOST_BLOCKS
        } else if moment < backlog {
            0
        } else {
            self.0.capacity(terms, moment - backlog)
        }
    }
}
