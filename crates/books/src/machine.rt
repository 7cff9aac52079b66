// A machine of a muster or a book.
ghost use Rattle.std.specs.Prelude.{◌≡◌, is_ok, if◌then◌else◌, Some, None};
ghost use Rattle.books.specs.Numbers.{bad_machine_number, bad_ticks, bad_lot, bad_backlog};
ghost use Rattle.books.specs.Ranges.{machine_in_range};
ghost use Rattle.books.specs.Refusals.{refusal_in};

use crate::lookup::Numbered;
use crate::refusal::{Refusal, check_range};
use pace::Terms;

#[derive(Clone, Copy, Debug, Default)]
pub struct Machine {
    pub number: u16,
    pub terms: Terms,
}

impl Numbered for Machine {
    ghost key = { λ m. m.number };

    fn number(&self) -> u32 {
        self.number as u32
    }
}

impl Machine {
    // The checks of what a machine is handed in with.
    pub(crate) fn check(&self) -> Result<(), Refusal>
        ensures refuses_by_the_first_range { refusal_in result ≡ (if bad_machine_number self.now.number then Some Refusal.MachineNumber else if bad_ticks self.now.terms.ticks then Some Refusal.Ticks else if bad_lot self.now.terms.lot then Some Refusal.Lot else if bad_backlog self.now.terms.backlog then Some Refusal.Backlog else None) }
        ensures passes_just_what_is_in_range { is_ok result ≡ machine_in_range self.now }
    {
        check_range(self.number as u32, 1, 9_999, Refusal::MachineNumber)?;
        check_range(self.terms.ticks as u32, 1, 9_999, Refusal::Ticks)?;
        check_range(self.terms.lot as u32, 1, 999, Refusal::Lot)?;
        check_range(self.terms.backlog, 0, 999_999, Refusal::Backlog)
    }
}
