// Moving blocks: of one batch from a machine to another, and along a chain of links.
ghost use Rattle.std.specs.Prelude.{◌≡◌, ℕ, ◌<◌, ◌≤◌, true, false, ◌≢◌};
ghost use Rattle.places.specs.Has.{has};
ghost use Rattle.theory.specs.Moves.{Moved, Carried};
ghost use Rattle.books.specs.Ranges.{holders_at};
ghost use Rattle.books.specs.Views.{batches_in};
ghost use Rattle.shares.specs.Cells.{nth};
ghost use Rattle.shares.specs.Links.{Widest};
ghost use Rattle.shares.specs.Stations.{leads_to};
ghost use Rattle.shares.specs.Reaches.{Chained};
ghost use Rattle.shares.specs.Plans.{machines_at, batches_at, share, load_at};

use super::Plan;
use crate::linking::Linking;
use crate::reach::Reach;

impl Plan {
    // Moves blocks of one batch to another of its holders.
    fn shift(&mut self, batch: usize, from: usize, to: usize, blocks: u32)
        requires batch_stands { batch < batches_at self.old }
        requires from_stands { from < machines_at self.old }
        requires to_stands { to < machines_at self.old }
        requires apart { from ≢ to }
        requires there { blocks ≤ share self.old batch from }
        requires held { has (holders_at (batches_in self.old.book) batch) to ≡ true }
        ensures keeps_the_book { self.new.book ≡ self.old.book }
        ensures keeps_the_width { self.new.width ≡ self.old.width }
        ensures moves_the_blocks { Moved blocks batch from to (share self.old) (share self.new) }
        ensures carries_the_loads { Carried from to blocks (load_at self.old) (load_at self.new) }
    {
        let linking = Linking::of(&self.book, self.width);
        let stations = &mut self.stations;
        stations[from].lose(linking, batch, blocks);
        stations[to].gain(linking, batch, blocks);
    }

    // The batch that leads from a machine to another by the most blocks, and how many these are.
    fn link(&self, from: usize, to: usize) -> (usize, u32)
        requires from_stands { from < machines_at self.now }
        requires linked { leads_to self.now.stations from to ≡ true }
        ensures gives_a_widest_link { Widest self.now.width (batches_in self.now.book) (λ b. share self.now b from) to result.0 }
        ensures gives_its_blocks { result.1 ≡ share self.now result.0 from }
    {
        self.stations[from].widest_link(Linking::of(&self.book, self.width), to)
    }

    // Moves blocks along the chain of the reach from the start to machine i: at most as many as wanted, and on each
    // link at most as many as its batch has there. It goes back from i to the start, and moves on the way out.
    pub(super) fn augment(&mut self, reach: &Reach, start: usize, i: usize, want: u32) -> u32
        requires chained { Chained (leads_to self.old.stations) start (has reach.now.places) (nth reach.now.before) }
        requires within_machines { (k : ℕ) → has reach.now.places k ≡ true → k < machines_at self.old }
        requires reached { has reach.now.places i ≡ true }
        ensures keeps_the_book { self.new.book ≡ self.old.book }
        ensures keeps_the_width { self.new.width ≡ self.old.width }
        ensures moves_at_most_as_many_as_wanted { result ≤ want }
        ensures moves_the_width_where_it_is_wanted { self.old.width ≤ want → self.old.width ≤ result }
        ensures carries_the_loads { Carried start i result (load_at self.old) (load_at self.new) }
        ensures keeps_what_lies_outside_the_reach { (b k : ℕ) → has reach.now.places k ≡ false → share self.new b k ≡ share self.old b k }
        ensures takes_none_from_later_stages { (chain : Chained (leads_to self.old.stations) start (has reach.now.places) (nth reach.now.before)) → (b k : ℕ) → chain.stage i ≤ chain.stage k → share self.old b k ≤ share self.new b k }
    {
        if i == start {
            return want;
        }
        let before = reach.before[i];
        let (batch, blocks) = self.link(before, i);
        let got = self.augment(reach, start, before, want.min(blocks));
        self.shift(batch, before, i, got);
        got
    }
}
