// A plan read by a pace: which machine ends where, and which other one it would help to relieve it.
ghost use Rattle.std.specs.Prelude.{◌≡◌, ℕ, ◌+◌, ◌-◌, ◌<◌, ◌≤◌, true, false, ◌||◌, IfNone, IfSome, MatchOption, ◌==◌};
ghost use Rattle.places.specs.Has.{has};
ghost use Rattle.books.specs.Views.{machines_in};
ghost use Rattle.shares.specs.Marks.{machine_at, mark_of};
ghost use Rattle.shares.specs.Plans.{machines_at, load_at, value_back, value_after, helps, LatestPlan};

use super::Plan;
use crate::mark::Mark;
use pace::Pace;
use places::Places;

// Each function asks that its machines stand and have their blocks. Sets of places give bare places, so a type of a place
// with its plan would be made and proved anew at each, and be no plainer.
#[derive_where(Clone, Copy)]
pub(super) struct Paced<'a, P> {
    pub(super) plan: &'a Plan,
    pub(super) pace: &'a P,
}

impl<'a, P: Pace> Paced<'a, P> {
    // Of the machines that are not exhausted and have `width` blocks, the one whose first of its last `width` blocks
    // has the latest mark.
    pub(super) fn latest(self, exhausted: Places) -> Option<usize>
        ensures finds_a_machine_that_is_not_exhausted { MatchOption result ((i : ℕ) → i < machines_at self.entry.plan.now → self.entry.plan.now.width ≤ load_at self.entry.plan.now i → has exhausted i ≡ true) (λ i. (i < machines_at self.entry.plan.now) × (self.entry.plan.now.width ≤ load_at self.entry.plan.now i) × (has exhausted i ≡ false)) }
        ensures finds_the_latest { IfSome result (λ i. LatestPlan (P.Pace.table self.entry.pace.now) self.entry.plan.now (has exhausted) i) }
    {
        // no chain by max_by_key over the order of marks: it takes a twentieth more instructions and misses the bar of speed
        let mut left = self.plan.laden().minus(exhausted);
        let first = left.pop_first()?;
        Some(self.latest_of(left, first))
    }

    // Of the given machines and the first one, all laden, the one whose first of its last `width` blocks has the
    // latest mark.
    fn latest_of(self, others: Places, first: usize) -> usize
        requires laden { (k : ℕ) → (has others k || k == first) ≡ true → (k < machines_at self.plan.now) × (self.plan.now.width ≤ load_at self.plan.now k) }
        ensures finds_one_of_them { (has others result || result == first) ≡ true }
        ensures finds_the_latest { (k : ℕ) → (has others k || k == first) ≡ true → value_back (P.Pace.table self.entry.pace.now) self.entry.plan.now k ≤ value_back (P.Pace.table self.entry.pace.now) self.entry.plan.now result }
    {
        let width = self.plan.width;
        let mut left = others;
        let mut latest = first;
        let mut mark = self.mark_back(first, width);
        while let Some(i) = left.pop_first() {
            let other = self.mark_back(i, width);
            if mark.is_before(other) {
                latest = i;
                mark = other;
            }
        }
        latest
    }

    // To which of the given machines a chain from machine i helps, and the most blocks that it helps to move.
    pub(super) fn relief(self, among: Places, i: usize) -> Option<(usize, u32)>
        requires stands { i < machines_at self.plan.now }
        requires laden { self.plan.now.width ≤ load_at self.plan.now i }
        requires stand { (k : ℕ) → has among k ≡ true → k < machines_at self.plan.now }
        ensures finds_none_only_where_none_helps { IfNone result ((k : ℕ) → has among k ≡ true → value_back (P.Pace.table self.entry.pace.now) self.entry.plan.now i ≤ value_after (P.Pace.table self.entry.pace.now) self.entry.plan.now k) }
        ensures finds_one_of_them { IfSome result (λ r. has among r.0 ≡ true) }
        ensures finds_one_that_helps { IfSome result (λ r. helps (P.Pace.table self.entry.pace.now) self.entry.plan.now i r.0 r.1 ≡ true) }
        ensures gives_the_width_at_least { IfSome result (λ r. self.entry.plan.now.width ≤ r.1) }
        ensures gives_the_load_at_most { IfSome result (λ r. r.1 ≤ load_at self.entry.plan.now i) }
    {
        let j = self.earliest(among)?;
        if !self.is_helped(i, j, self.plan.width) {
            return None;
        }
        Some((j, self.most(i, j)))
    }

    // Of the given machines, the one that would end `width` blocks more at the earliest mark. It asks for a width that fits,
    // since the type of a plan takes any above 0.
    fn earliest(self, among: Places) -> Option<usize>
        requires stand { (k : ℕ) → has among k ≡ true → k < machines_at self.plan.now }
        requires few { self.plan.now.width ≤ 1000000 }
        ensures finds_one_of_them { MatchOption result ((k : ℕ) → has among k ≡ false) (λ j. has among j ≡ true) }
        ensures finds_the_earliest { IfSome result (λ j. (k : ℕ) → has among k ≡ true → value_after (P.Pace.table self.entry.pace.now) self.entry.plan.now j ≤ value_after (P.Pace.table self.entry.pace.now) self.entry.plan.now k) }
    {
        // as in `latest`: min_by_key misses the bar of speed
        let mut left = among;
        let first = left.pop_first()?;
        Some(self.earliest_of(left, first))
    }

    // Of the given machines and the first one, the one that would end `width` blocks more at the earliest mark. As
    // `latest_of` but for the mark and the order: with these two as closures the contract is about relations, and no plainer.
    fn earliest_of(self, others: Places, first: usize) -> usize
        requires stand { (k : ℕ) → (has others k || k == first) ≡ true → k < machines_at self.plan.now }
        requires few { self.plan.now.width ≤ 1000000 }
        ensures finds_one_of_them { (has others result || result == first) ≡ true }
        ensures finds_the_earliest { (k : ℕ) → (has others k || k == first) ≡ true → value_after (P.Pace.table self.entry.pace.now) self.entry.plan.now result ≤ value_after (P.Pace.table self.entry.pace.now) self.entry.plan.now k }
    {
        let width = self.plan.width;
        let mut left = others;
        let mut earliest = first;
        let mut mark = self.mark_after(first, width);
        while let Some(j) = left.pop_first() {
            let other = self.mark_after(j, width);
            if other.is_before(mark) {
                earliest = j;
                mark = other;
            }
        }
        earliest
    }

    // Whether machine j ends its next blocks before machine i ends the first of its last so many.
    fn is_helped(self, i: usize, j: usize, blocks: u32) -> bool
        requires stand { (i < machines_at self.plan.now) × (j < machines_at self.plan.now) }
        requires there { (0 < blocks) × (blocks ≤ load_at self.plan.now i) }
        ensures tells_whether_it_helps { result ≡ helps (P.Pace.table self.entry.pace.now) self.entry.plan.now i j blocks }
    {
        let next = self.mark_after(j, blocks);
        next.is_before(self.mark_back(i, blocks))
    }

    // The most blocks that it helps to move from machine i to machine j, if it helps for `width`. Sought by halves; the
    // library does so in slices, but not among numbers.
    fn most(self, i: usize, j: usize) -> u32
        requires stand { (i < machines_at self.plan.now) × (j < machines_at self.plan.now) }
        requires there { self.plan.now.width ≤ load_at self.plan.now i }
        requires a_chain_helps { helps (P.Pace.table self.pace.now) self.plan.now i j self.plan.now.width ≡ true }
        ensures gives_at_least_the_width { self.entry.plan.now.width ≤ result }
        ensures gives_at_most_the_load { result ≤ load_at self.entry.plan.now i }
        ensures gives_blocks_that_help { helps (P.Pace.table self.entry.pace.now) self.entry.plan.now i j result ≡ true }
    {
        let mut low = self.plan.width;
        let mut high = self.plan.load(i);
        while low < high {
            let middle = high - (high - low) / 2;
            if self.is_helped(i, j, middle) {
                low = middle;
            } else {
                high = middle - 1;
            }
        }
        low
    }

    // The mark at which the machine would end so many blocks more.
    fn mark_after(self, i: usize, blocks: u32) -> Mark
        requires stands { i < machines_at self.plan.now }
        requires few { blocks ≤ 1000000 }
        ensures gives_the_mark { result ≡ mark_of (P.Pace.table self.entry.pace.now) (machine_at (machines_in self.entry.plan.now.book) i) (load_at self.entry.plan.now i + blocks) }
    {
        let machine = &self.plan.book().machines()[i];
        Mark::of(self.pace, machine, self.plan.load(i) + blocks)
    }

    // The mark of the first of the machine's last so many blocks.
    fn mark_back(self, i: usize, blocks: u32) -> Mark
        requires stands { i < machines_at self.plan.now }
        requires there { (0 < blocks) × (blocks ≤ load_at self.plan.now i) }
        ensures gives_the_mark { result ≡ mark_of (P.Pace.table self.entry.pace.now) (machine_at (machines_in self.entry.plan.now.book) i) (load_at self.entry.plan.now i - blocks + 1) }
    {
        let machine = &self.plan.book().machines()[i];
        Mark::of(self.pace, machine, self.plan.load(i) - blocks + 1)
    }
}
