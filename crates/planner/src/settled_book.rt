// A settled book: loads, shares and endings are read.
ghost use Rattle.std.specs.Prelude.{◌≡◌, ℕ, ◌<◌, ◌≤◌, ◌↔◌, Bool, map, length, IsTrue, IfOk};
ghost use Rattle.books.specs.Questions.{Load, Share, Ending, first_told};
ghost use Rattle.books.specs.Refusals.{refusal_in};
ghost use Rattle.books.specs.Views.{batch_of, standing_of};
ghost use Rattle.shares.specs.Marks.{machine_at};
ghost use Rattle.shares.specs.Plans.{share, load_at};
ghost use Rattle.planner.specs.Lent.{IsMachineList, IsBatchList};
ghost use Rattle.planner.specs.ShareOuts.{machine_count, held_at, Shared, load_of, Best, LastEnding, NoneEndsBefore, SameLoads, AlikeSettled};
ghost use Rattle.planner.specs.States.{in_book, in_settled, book_pace, settled_pace, shares_in};

use crate::open_book::OpenBook;
use books::{Batch, Machine, Refusal};
use pace::Pace;
use shares::Plan;

// The plan's type keeps that its shares are complete and its loads their sums. This type does not keep what `settle`
// promises by the pace's table: the bound for it would ask a pace of every caller that only reads.
#[derive(Drop)]
pub struct SettledBook<P> {
    pub(crate) pace: P,
    pub(crate) plan: Plan,
}

impl<P> SettledBook<P> {
    // The machines, in ascending number. A method of each state, since a trait would be an import for every caller.
    pub fn machines(&self) -> &[Machine]
        ensures lends_the_machines { result.now ≡ (in_settled self.now).machines }
        ensures lends_them_in_order_and_range { IsMachineList result.now }
    {
        self.plan.book().machines()
    }

    // The batches, in ascending number. Their holders are places among the machines. A method of each state, as `machines`.
    pub fn batches(&self) -> &[Batch]
        ensures lends_the_batches { map (batch_of (in_settled self.now).machines) result.now
            ≡ (in_settled self.now).batches }
        ensures lends_them_in_order_and_range { IsBatchList (machine_count (in_settled self.now)) result.now }
    {
        self.plan.book().batches()
    }

    // The load of the machine: the sum of its shares.
    pub fn load(&self, machine: u16) -> Result<u32, Refusal>
        ensures refuses_just_where_the_machine_is_unknown { refusal_in result ≡ first_told (Load machine) (in_settled self.now) }
        ensures gives_the_sum_of_its_shares { IfOk result (λ v. (i : ℕ) → i < machine_count (in_settled self.now)
            → (machine_at (in_settled self.now).machines i).number ≡ machine
            → v ≡ load_of (in_settled self.now) (shares_in self.now) i) }
    {
        let place = self.plan.book().place_of_machine(machine)?;
        Ok(self.plan.load(place))
    }

    // The blocks of the batch that the machine is to send; 0 for a machine that is no holder.
    #[tactic(auto, using(crate::proofs::Standings::shared))]
    pub fn share(&self, batch: u32, machine: u16) -> Result<u32, Refusal>
        ensures refuses_by_the_first_check_that_applies { refusal_in result ≡ first_told (Share batch machine) (in_settled self.now) }
        ensures gives_the_share { IfOk result (λ v. (b i : ℕ) → b < length (in_settled self.now).batches
            → (held_at (in_settled self.now) b).number ≡ batch
            → i < machine_count (in_settled self.now)
            → (machine_at (in_settled self.now).machines i).number ≡ machine
            → v ≡ shares_in self.now b i) }
        ensures reads_a_share_out_of_what_stands { Shared (in_settled self.now) (shares_in self.now) }
    {
        let book = self.plan.book();
        let batch = book.place_of_batch(batch)?;
        let place = book.place_of_machine(machine)?;
        Ok(self.plan.share(batch, place))
    }

    // The open book of the same machines and batches.
    pub fn reopen(self) -> OpenBook<P>
        ensures keeps_what_stands { in_book result ≡ in_settled self }
        ensures keeps_the_pace { book_pace result ≡ settled_pace self }
    {
        let SettledBook { pace, plan } = self;
        OpenBook {
            pace,
            book: plan.into_book(),
        }
    }
}

impl<P: Pace> SettledBook<P> {
    // The latest moment of any block.
    pub fn last_ending(&self) -> Result<u64, Refusal>
        ensures refuses_just_where_there_is_no_block { refusal_in result ≡ first_told Ending (in_settled self.now) }
        ensures gives_the_latest_moment_of_any_block { IfOk result
            (LastEnding (P.Pace.table (settled_pace self.now)) (in_settled self.now) (shares_in self.now)) }
        ensures no_rival_ends_earlier { IfOk result (λ t.
            Best (P.Pace.table (settled_pace self.now)) (in_settled self.now) (shares_in self.now)
            → NoneEndsBefore (P.Pace.table (settled_pace self.now)) (in_settled self.now) t) }
    {
        if self.plan.book().blocks() == 0 {
            return Err(Refusal::NoBlock);
        }
        Ok(self.latest_moment())
    }

    // The latest moment at which a machine ends its last block; 0 where none has a block.
    fn latest_moment(&self) -> u64
        ensures no_machine_ends_later { (i : ℕ) → i < machine_count (in_settled self.now)
            → P.Pace.table (settled_pace self.now) (machine_at (in_settled self.now).machines i).terms (load_at self.now.plan i) ≤ result }
        ensures some_machine_ends_then { 0 < result → (i : ℕ) × (i < machine_count (in_settled self.now))
            × (P.Pace.table (settled_pace self.now) (machine_at (in_settled self.now).machines i).terms (load_at self.now.plan i) ≡ result) }
    {
        self.machines()
            .iter()
            .enumerate()
            .map(|(i, machine)| self.pace.moment(machine.terms, self.plan.load(i)))
            .max()
            .unwrap_or(0)
    }

    // Whether both books have the same machine numbers and the same load on each machine.
    pub fn same_loads<Q: Pace>(&self, other: &SettledBook<Q>) -> bool
        ensures tells_whether_numbers_and_loads_agree { IsTrue result
            ↔ SameLoads (in_settled self.now) (shares_in self.now) (in_settled other.now) (shares_in other.now) }
        ensures equal_books_have_equal_loads { AlikeSettled (P.Pace.table (settled_pace self.now)) (in_settled self.now) (shares_in self.now)
            (Q.Pace.table (settled_pace other.now)) (in_settled other.now) (shares_in other.now)
            → IsTrue result }
    {
        loads_agree(&self.plan, &other.plan)
    }
}

// The comparison itself, which needs no pace.
fn loads_agree(plan: &Plan, other: &Plan) -> bool
    ensures tells_whether_numbers_and_loads_agree { IsTrue result
        ↔ SameLoads (standing_of plan.now.book) (share plan.now) (standing_of other.now.book) (share other.now) }
{
    let machines = plan.book().machines();
    let others = other.book().machines();
    machines.len() == others.len()
        && machines.iter().zip(others).enumerate().all(|(i, (machine, twin))| {
            machine.number == twin.number && plan.load(i) == other.load(i)
        })
}
