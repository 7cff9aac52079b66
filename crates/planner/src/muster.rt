// A muster: machines are enlisted, and then the book is opened.
ghost use Rattle.std.specs.Prelude.{◌≡◌, OnOk, OnErr};
ghost use Rattle.books.specs.Calls.{Enlist, Open, machine_with, after};
ghost use Rattle.books.specs.Refusals.{first_refusal, refusal_in};
ghost use Rattle.books.specs.Standing.{nothing};
ghost use Rattle.planner.specs.Lent.{IsMachineList};
ghost use Rattle.planner.specs.States.{in_muster, in_book, muster_pace, book_pace};

use crate::open_book::OpenBook;
use books::{Book, Machine, Refusal, Roster};
use pace::{Meter, Terms};

// In each state every call says that it keeps the pace: told in one equation with what stands, neither would go by its name.
#[derive(Drop)]
pub struct Muster<P> {
    pace: P,
    roster: Roster,
}

impl<P: Meter> Muster<P> {
    // A new muster, in which no machine is enlisted.
    pub fn begin(pace: P) -> Muster<P>
        ensures begins_with_nothing { in_muster result ≡ nothing }
        ensures keeps_the_pace { muster_pace result ≡ pace }
    {
        Muster {
            pace,
            roster: Roster::new(),
        }
    }
}

impl<P> Muster<P> {
    // The machines, in ascending number. A method of each state, since a trait would be an import for every caller.
    pub fn machines(&self) -> &[Machine]
        ensures lends_the_machines { result.now ≡ (in_muster self.now).machines }
        ensures lends_them_in_order_and_range { IsMachineList result.now }
    {
        self.roster.machines()
    }

    // Adds a machine; at most 32 are enlisted.
    pub fn enlist(&mut self, number: u16, ticks: u16, lot: u16, backlog: u32) -> Result<(), Refusal>
        ensures refuses_by_the_first_check_that_applies { refusal_in result
            ≡ first_refusal (Enlist (machine_with number ticks lot backlog)) (in_muster self.old) }
        ensures changes_nothing_where_refused { OnErr result (self.new ≡ self.old) }
        ensures adds_the_machine_where_accepted { OnOk result (
            in_muster self.new ≡ after (Enlist (machine_with number ticks lot backlog)) (in_muster self.old)) }
        ensures keeps_the_pace { muster_pace self.new ≡ muster_pace self.old }
    {
        let terms = Terms {
            ticks,
            lot,
            backlog,
        };
        self.roster.enlist(Machine { number, terms })
    }

    // The open book of these machines, without a batch.
    pub fn open(self) -> OpenBook<P>
        ensures keeps_what_stands { in_book result ≡ after Open (in_muster self) }
        ensures keeps_the_pace { book_pace result ≡ muster_pace self }
    {
        let Muster { pace, roster } = self;
        OpenBook {
            pace,
            book: Book::new(roster),
        }
    }
}
