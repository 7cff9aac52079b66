// Takes an office day in through the planner's calls, and prints what stands at its end.
#![tactic(auto)]

use std::io;

mod standing;
mod sums;

use pace::{Backlog, Even};

fn main(rt: HostRuntime) -> io::Result<()> {
    let pace = Backlog(Even);
    let muster = office_day::muster(&rt, pace)?;
    let mut book = muster.open();
    office_day::morning(&rt, &mut book)?;
    office_day::afternoon(&rt, &mut book)?;
    standing::print_machines(&rt, &book)?;
    standing::print_batches(&rt, &book)?;
    standing::print_sets(&rt, &book)?;
    standing::print_moment(&rt, &book, &pace, 5)?;
    standing::print_moment(&rt, &book, &pace, 6)
}
