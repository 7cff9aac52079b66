// The machines of a muster or a book, in ascending number, and the plain calls behind those of musters and books.
ghost use Rattle.std.specs.Prelude.{◌≡◌, ℕ, ◌<◌, ◌≤◌, true, not, [], length, is_ok, IfOk, OnOk, OnErr, if◌then◌else◌, Some, None, MatchResult};
ghost use Rattle.std.specs.List.{list_all};
ghost use Rattle.places.specs.Has.{has};
ghost use Rattle.fixed.specs.Items.{items};
ghost use Rattle.books.specs.Numbers.{among, ascending, outside, Found, Missing};
ghost use Rattle.books.specs.Ranges.{machine_in_range};
ghost use Rattle.books.specs.Standing.{machine_numbers};

use crate::lookup::{find, place_of};
use crate::machine::Machine;
use crate::refusal::{Refusal, refuse_if};
use fixed::FixedVec;
use places::Places;

#[derive(Drop)]
pub struct Roster {
    machines: FixedVec<Machine, 32>,
    ghost ascends: { ascending (machine_numbers (items machines)) ≡ true },
    ghost in_range: { list_all machine_in_range (items machines) ≡ true },
    ghost few: { length (items machines) ≤ 32 },
}

impl Roster {
    ghost use Rattle.books.specs.Holders.{numbers_at};
    ghost use Rattle.books.specs.Calls.{Enlist, after};
    ghost use Rattle.books.specs.Refusals.{first_refusal, refusal_in, all_among};
    ghost use Rattle.books.specs.Views.{machines_of, mustered};

    // No machine.
    pub fn new() -> Roster
        ensures holds_no_machine { machines_of result ≡ [] }
    {
        Roster {
            machines: FixedVec::new(Machine::default()),
        }
    }

    pub fn machines(&self) -> &[Machine]
        ensures lends_the_machines { result.now ≡ machines_of self.now }
    {
        self.machines.as_slice()
    }

    // The place of the machine with the number, or else the place at which it would stand.
    pub fn find(&self, number: u16) -> Result<usize, usize>
        ensures finds_the_place { MatchResult result (Found number (machine_numbers (machines_of self.now))) (Missing number (machine_numbers (machines_of self.now))) }
        ensures tells_whether_it_stands { is_ok result ≡ among number (machine_numbers (machines_of self.now)) }
    {
        find(self.machines(), number as u32)
    }

    // The place of the machine with the number.
    pub(crate) fn place_of(&self, number: u16) -> Result<usize, Refusal>
        ensures refuses_just_where_it_is_unknown { refusal_in result ≡ (if not (among number (machine_numbers (machines_of self.now))) then Some Refusal.MachineUnknown else None) }
        ensures finds_the_place { IfOk result (Found number (machine_numbers (machines_of self.now))) }
    {
        place_of(self.machines(), number as u32, Refusal::MachineUnknown)
    }

    // Adds a machine at its place in ascending number.
    pub fn enlist(&mut self, machine: Machine) -> Result<(), Refusal>
        ensures refuses_by_the_first_check_that_applies { refusal_in result ≡ first_refusal (Enlist machine) (mustered self.old) }
        ensures changes_nothing_where_refused { OnErr result (self.new ≡ self.old) }
        ensures adds_the_machine_where_accepted { OnOk result (mustered self.new ≡ after (Enlist machine) (mustered self.old)) }
    {
        machine.check()?;
        let Err(at) = self.find(machine.number) else {
            return Err(Refusal::MachineStands);
        };
        refuse_if(self.machines.is_full(), Refusal::MachinesFull)?;
        self.machines.insert(at, machine);
        Ok(())
    }

    // The places of the holders of a batch, by their machine numbers.
    pub(crate) fn places_of(&self, holders: &[u16]) -> Result<Places, Refusal>
        ensures refuses_by_the_first_check_of_the_holders { refusal_in result ≡ (if outside 1 32 (length holders.now) then Some Refusal.HolderCount else if not (ascending holders.now) then Some Refusal.HolderOrder else if not (all_among holders.now (machine_numbers (machines_of self.now))) then Some Refusal.MachineUnknown else None) }
        ensures holds_the_places_of_just_these_machines { IfOk result (λ p. numbers_at (has p) (machines_of self.now) ≡ holders.now) }
        ensures holds_places_of_machines_only { IfOk result (λ p. (k : ℕ) → has p k ≡ true → k < length (machines_of self.now)) }
    {
        refuse_if(
            holders.is_empty() || holders.len() > 32,
            Refusal::HolderCount,
        )?;
        refuse_if(!ascends(holders), Refusal::HolderOrder)?;
        self.places_of_known(holders)
    }

    // The places of the machines with these numbers, which are to be in ascending order.
    fn places_of_known(&self, numbers: &[u16]) -> Result<Places, Refusal>
        ensures refuses_just_where_a_machine_is_unknown { refusal_in result ≡ (if not (all_among numbers.now (machine_numbers (machines_of self.now))) then Some Refusal.MachineUnknown else None) }
        ensures holds_the_places_of_just_these_machines { ascending numbers.now ≡ true → IfOk result (λ p. numbers_at (has p) (machines_of self.now) ≡ numbers.now) }
        ensures holds_places_of_machines_only { IfOk result (λ p. (k : ℕ) → has p k ≡ true → k < length (machines_of self.now)) }
    {
        let mut places = Places::empty();
        for number in numbers {
            places = places.with(self.place_of(*number)?);
        }
        Ok(places)
    }
}

// Whether each number is below the next one.
fn ascends(numbers: &[u16]) -> bool
    ensures tells_whether_they_ascend { result ≡ ascending numbers.now }
{
    numbers.is_sorted_by(|number, next| number < next)
}
