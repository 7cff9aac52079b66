// Why a call is refused. The first check that applies, in the order of the call's checks, is told.
ghost use Rattle.std.specs.Prelude.{◌≡◌, if◌then◌else◌, Some, None};
ghost use Rattle.std.specs.Fmt.{decimal, styled_decimal};
ghost use Rattle.books.specs.Numbers.{outside};
ghost use Rattle.books.specs.Refusals.{case_of, refusal_in};

use std::fmt;

#[derive(Clone, Copy, PartialEq, Eq, Debug)]
pub enum Refusal {
    // refused for what was handed in: 11 to 16 are outside their ranges
    MachineNumber = 11,
    Ticks = 12,
    Lot = 13,
    Backlog = 14,
    BatchNumber = 15,
    Blocks = 16,
    // no holder, or more than 32
    HolderCount = 17,
    // not strictly ascending
    HolderOrder = 18,
    // refused for how the muster or the book stands: a machine with this number is enlisted
    MachineStands = 41,
    // 32 machines stand
    MachinesFull = 42,
    // no machine has the number
    MachineUnknown = 43,
    // 128 batches stand, and this is another
    BatchesFull = 44,
    // the batch stands with other holders
    OtherHolders = 45,
    // the batch would pass 99,999 blocks
    BatchPasses = 46,
    // the book would pass 1,000,000 blocks
    BookPasses = 47,
    // no batch has the number
    BatchUnknown = 48,
    // the batch has fewer blocks
    BatchFewer = 49,
    // the book has no block
    NoBlock = 50,
}

impl Refusal {
    // The number by which it is told: a word of the rules, which `u8::from` would not say.
    pub fn number(self) -> u8
        ensures is_the_number_of_its_case { result ≡ (case_of self).number }
    {
        self as u8
    }
}

// A refusal is printed as its number.
impl fmt::Display for Refusal {
    ghost output = { λ r. Some (decimal (case_of r).number) };

    ghost styled_output = { λ r spec. Some (styled_decimal spec (case_of r).number) };

    fn fmt<W: fmt::Write>(&self, f: &mut fmt::Formatter<W>) -> fmt::Result {
        self.number().fmt(f)
    }
}

// A check of a call: refuses where it applies.
pub(crate) fn refuse_if(applies: bool, refusal: Refusal) -> Result<(), Refusal>
    ensures refuses_just_where_it_applies { refusal_in result ≡ (if applies then Some refusal else None) }
{
    if applies {
        return Err(refusal);
    }
    Ok(())
}

// Refuses a value outside its range.
pub(crate) fn check_range(value: u32, low: u32, high: u32, refusal: Refusal) -> Result<(), Refusal>
    ensures refuses_just_what_is_outside { refusal_in result ≡ (if outside low high value then Some refusal else None) }
{
    refuse_if(value < low || value > high, refusal)
}
