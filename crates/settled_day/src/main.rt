// Takes an office day in through the planner's calls, settles the book twice, and prints who sends what.
#![tactic(auto)]

use std::io;

mod settled;

use pace::{Backlog, Even};

fn main(rt: HostRuntime) -> io::Result<()> {
    let pace = Backlog(Even);
    let muster = office_day::muster(&rt, pace)?;
    let mut book = muster.open();
    office_day::morning(&rt, &mut book)?;
    let settled = book.settle();
    settled::print_settled(&rt, &settled, &pace)?;
    let mut book = settled.reopen();
    println!(rt; "Calls after the book is opened again")?;
    office_day::afternoon(&rt, &mut book)?;
    let settled = book.settle();
    settled::print_settled(&rt, &settled, &pace)
}
