// Where a block stands in the order of all blocks.
ghost use Rattle.std.specs.Prelude.{◌≡◌};
ghost use Rattle.shares.specs.Marks.{later, mark_of};

use books::Machine;
use pace::Pace;

// A moment and a machine number: ordered by moment, then by number.
#[derive(Clone, Copy, Debug, PartialEq, Eq, PartialOrd, Ord)]
pub struct Mark {
    pub moment: u64,
    pub number: u16,
}

impl Mark {
    // The mark of the machine's k-th block.
    pub fn of<P: Pace>(pace: &P, machine: &Machine, k: u32) -> Mark
        ensures gives_the_moment_and_the_number { result ≡ mark_of (P.Pace.table pace.now) machine.now k }
    {
        Mark {
            moment: pace.moment(machine.terms, k),
            number: machine.number,
        }
    }

    // Whether the other mark is after this one.
    pub fn is_before(self, other: Mark) -> bool
        ensures tells_whether_the_other_is_after { result ≡ later other self }
    {
        self < other
    }
}
