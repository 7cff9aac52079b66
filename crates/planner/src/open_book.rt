// An open book: blocks of batches are held and dropped.
ghost use Rattle.std.specs.Prelude.{◌≡◌, map, OnOk, OnErr};
ghost use Rattle.books.specs.Calls.{Hold, Drop, after};
ghost use Rattle.books.specs.Refusals.{first_refusal, refusal_in};
ghost use Rattle.books.specs.Views.{batch_of};
ghost use Rattle.planner.specs.Lent.{IsMachineList, IsBatchList};
ghost use Rattle.planner.specs.ShareOuts.{machine_count, Shared, Best, NoChainHelps};
ghost use Rattle.planner.specs.States.{in_book, in_settled, book_pace, settled_pace, shares_in};

use crate::settled_book::SettledBook;
use books::{Batch, Book, Machine, Refusal};
use pace::Pace;
use shares::Plan;

#[derive(Drop)]
pub struct OpenBook<P> {
    pub(crate) pace: P,
    pub(crate) book: Book,
}

impl<P> OpenBook<P> {
    // The machines, in ascending number. A method of each state, since a trait would be an import for every caller.
    pub fn machines(&self) -> &[Machine]
        ensures lends_the_machines { result.now ≡ (in_book self.now).machines }
        ensures lends_them_in_order_and_range { IsMachineList result.now }
    {
        self.book.machines()
    }

    // The batches, in ascending number. Their holders are places among the machines. A method of each state, as `machines`.
    pub fn batches(&self) -> &[Batch]
        ensures lends_the_batches { map (batch_of (in_book self.now).machines) result.now
            ≡ (in_book self.now).batches }
        ensures lends_them_in_order_and_range { IsBatchList (machine_count (in_book self.now)) result.now }
    {
        self.book.batches()
    }

    // Adds blocks to a batch, or starts the batch; the holders are machine numbers, strictly ascending.
    pub fn hold(&mut self, batch: u32, blocks: u32, holders: &[u16]) -> Result<(), Refusal>
        ensures refuses_by_the_first_check_that_applies { refusal_in result
            ≡ first_refusal (Hold batch blocks holders.now) (in_book self.old) }
        ensures changes_nothing_where_refused { OnErr result (self.new ≡ self.old) }
        ensures adds_the_blocks_where_accepted { OnOk result (
            in_book self.new ≡ after (Hold batch blocks holders.now) (in_book self.old)) }
        ensures keeps_the_pace { book_pace self.new ≡ book_pace self.old }
    {
        self.book.hold(batch, blocks, holders)
    }

    // Takes blocks from a batch, which is removed with its last one.
    pub fn drop(&mut self, batch: u32, blocks: u32) -> Result<(), Refusal>
        ensures refuses_by_the_first_check_that_applies { refusal_in result
            ≡ first_refusal (Drop batch blocks) (in_book self.old) }
        ensures changes_nothing_where_refused { OnErr result (self.new ≡ self.old) }
        ensures takes_the_blocks_where_accepted { OnOk result (
            in_book self.new ≡ after (Drop batch blocks) (in_book self.old)) }
        ensures keeps_the_pace { book_pace self.new ≡ book_pace self.old }
    {
        self.book.drop(batch, blocks)
    }
}

impl<P: Pace> OpenBook<P> {
    // Shares the blocks out, as well as can be. Which of the best share-outs it is stays open.
    pub fn settle(self) -> SettledBook<P>
        ensures keeps_what_stands { in_settled result ≡ in_book self }
        ensures keeps_the_pace { settled_pace result ≡ book_pace self }
        ensures gives_all_blocks_to_holders { Shared (in_book self) (shares_in result) }
        ensures no_rival_has_fewer_blocks_after_any_mark { Best (P.Pace.table (book_pace self)) (in_book self) (shares_in result) }
        ensures no_chain_of_moves_helps { NoChainHelps (P.Pace.table (book_pace self)) (in_book self) (shares_in result) }
    {
        let OpenBook { pace, book } = self;
        let plan = Plan::settle(book, &pace);
        SettledBook { pace, plan }
    }
}
