// What is read from a settled book, printed.
use office_day::DayPace;
use pace::Pace;
use planner::{Refusal, SettledBook};
use std::io;

pub(crate) fn print_settled(
    rt: &impl Print,
    book: &SettledBook<DayPace>,
    pace: &DayPace,
) -> io::Result<()> {
    print_loads(rt, book, pace)?;
    print_shares(rt, book)?;
    match book.last_ending() {
        Ok(moment) => println!(rt; "Last ending {moment}"),
        Err(refusal) => print_refusal(rt, refusal),
    }
}

fn print_loads(rt: &impl Print, book: &SettledBook<DayPace>, pace: &DayPace) -> io::Result<()> {
    println!(rt; "Loads: machine, load, moment of its last block")?;
    for machine in book.machines() {
        let number = machine.number;
        match book.load(number) {
            Ok(load) => {
                let moment = pace.moment(machine.terms, load);
                println!(rt; "  {number:>5} {load:>7} {moment:>11}")?;
            }
            Err(refusal) => print_refusal(rt, refusal)?,
        }
    }
    Ok(())
}

fn print_shares(rt: &impl Print, book: &SettledBook<DayPace>) -> io::Result<()> {
    println!(rt; "Shares: batch, machine, blocks")?;
    for batch in book.batches() {
        for (place, machine) in book.machines().iter().enumerate() {
            if batch.holders.contains(place) {
                print_share(rt, book, batch.number, machine.number)?;
            }
        }
    }
    Ok(())
}

fn print_share(
    rt: &impl Print,
    book: &SettledBook<DayPace>,
    batch: u32,
    machine: u16,
) -> io::Result<()> {
    match book.share(batch, machine) {
        Ok(blocks) => println!(rt; "  {batch:>5} {machine:>5} {blocks:>6}"),
        Err(refusal) => print_refusal(rt, refusal),
    }
}

fn print_refusal(rt: &impl Print, refusal: Refusal) -> io::Result<()> {
    println!(rt; "  refused, {refusal}")
}
