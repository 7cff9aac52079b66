// Levelling: moves along chains until none helps.
//
// A chain from machine i to machine j helps if j ends its next `width` blocks before i ends the first of its last
// `width`. Machines are relieved from the latest mark down. A machine that no chain relieves is exhausted, with all
// that it leads to: these end no later and lead nowhere else, and no later move makes one of them worth a try. So the
// exhausted machines only grow, and at most 32 tries of a run fail. Each move lowers the total of all marks.
ghost use Rattle.std.specs.Prelude.{◌≡◌, ℕ, ◌<◌, ◌≤◌, true, false, IfSome, MatchOption};
ghost use Rattle.places.specs.Has.{has, size};
ghost use Rattle.theory.specs.Moves.{total_of_marks};
ghost use Rattle.shares.specs.Cells.{nth};
ghost use Rattle.shares.specs.Levels.{ClosedBy};
ghost use Rattle.shares.specs.Tables.{demand_of};
ghost use Rattle.shares.specs.Plans.{machines_at, share, load_at, values_in, Outreach, ExhaustedPlan, LatestPlan, LevelPlan};

use super::Plan;
use super::paced::Paced;
use crate::reach::Reach;
use pace::Pace;
use places::Places;

impl Plan {
    // Moves along chains of `width` blocks and more until none helps.
    pub(super) fn level<P: Pace>(&mut self, pace: &P)
        ensures keeps_the_book { self.new.book ≡ self.old.book }
        ensures leaves_no_chain_of_so_many_blocks_that_helps { LevelPlan self.old.width (P.Pace.table pace.now) self.new }
    {
        let mut exhausted = Places::empty();
        while let Some(i) = self.paced(pace).latest(exhausted) {
            if let Some(more) = self.relieve(pace, exhausted, i) {
                exhausted = more;
            }
        }
    }

    // The plan, read by the pace.
    fn paced<'a, P: Pace>(&'a self, pace: &'a P) -> Paced<'a, P>
        ensures reads_the_plan { result.plan.now ≡ self.now }
        ensures goes_by_the_pace { result.pace.now ≡ pace.now }
    {
        Paced { plan: self, pace }
    }

    // Moves blocks from machine i along a chain that helps, past no exhausted machine. Where none helps: the exhausted
    // machines with all that i leads to.
    fn relieve<P: Pace>(&mut self, pace: &P, exhausted: Places, i: usize) -> Option<Places>
        requires stands { i < machines_at self.old }
        requires laden { self.old.width ≤ load_at self.old i }
        requires not_exhausted { has exhausted i ≡ false }
        requires latest { LatestPlan (P.Pace.table pace.now) self.old (has exhausted) i }
        requires spent { ExhaustedPlan (P.Pace.table pace.now) self.old (has exhausted) }
        ensures keeps_the_book { self.new.book ≡ self.old.book }
        ensures keeps_the_width { self.new.width ≡ self.old.width }
        ensures lowers_the_total_of_marks_or_changes_nothing { MatchOption result (total_of_marks (machines_at self.old) (values_in (P.Pace.table pace.now) self.old) (load_at self.new) < total_of_marks (machines_at self.old) (values_in (P.Pace.table pace.now) self.old) (load_at self.old)) (λ _. self.new ≡ self.old) }
        ensures exhausts_more_or_keeps_them_exhausted { MatchOption result (ExhaustedPlan (P.Pace.table pace.now) self.new (has exhausted)) (λ more. ExhaustedPlan (P.Pace.table pace.now) self.new (has more)) }
        ensures exhausts_one_more_at_least { IfSome result (λ more. size (has exhausted) < size (has more)) }
    {
        let (all, reach) = self.reach_past(exhausted, i);
        let Some((j, want)) = self.paced(pace).relief(reach.places, i) else {
            return Some(all);
        };
        self.augment(&reach, i, j, want);
        None
    }

    // All that machine i and the exhausted machines lead to, and the reach of i among what is not exhausted.
    fn reach_past(&self, exhausted: Places, i: usize) -> (Places, Reach)
        requires stands { i < machines_at self.now }
        requires not_exhausted { has exhausted i ≡ false }
        requires within_machines { (k : ℕ) → has exhausted k ≡ true → k < machines_at self.now }
        requires closed { ClosedBy self.now.width (machines_at self.now) (demand_of self.now.book) (share self.now) (has exhausted) }
        ensures reaches_past_the_exhausted { Outreach self.now (has exhausted) (has result.0) (has result.1.places) i (nth result.1.before) }
    {
        let mut reach = Reach::of(&self.stations, exhausted.with(i));
        let all = reach.places;
        reach.places = all.minus(exhausted);
        (all, reach)
    }
}
