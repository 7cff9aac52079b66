// What stands in the book, printed.
use crate::sums::{all_blocks, all_capacities, blocks_of_set, is_new};
use office_day::DayPace;
use pace::Meter;
use places::Places;
use planner::{Machine, OpenBook};
use std::io;

pub(crate) fn print_machines(rt: &impl Print, book: &OpenBook<DayPace>) -> io::Result<()> {
    println!(rt; "Machines: number, ticks, lot, backlog")?;
    for machine in book.machines() {
        let number = machine.number;
        let ticks = machine.terms.ticks;
        let lot = machine.terms.lot;
        let backlog = machine.terms.backlog;
        println!(rt; "  {number:>5} {ticks:>5} {lot:>4} {backlog:>7}")?;
    }
    Ok(())
}

pub(crate) fn print_batches(rt: &impl Print, book: &OpenBook<DayPace>) -> io::Result<()> {
    println!(rt; "Batches: number, blocks, holders")?;
    for batch in book.batches() {
        let number = batch.number;
        let blocks = batch.blocks;
        print!(rt; "  {number:>5} {blocks:>6} ")?;
        print_holders(rt, book.machines(), batch.holders)?;
        println!(rt; "")?;
    }
    Ok(())
}

// Each set of holders once, where the first of its batches stands. No map of sets: these would need an order or a hash.
pub(crate) fn print_sets(rt: &impl Print, book: &OpenBook<DayPace>) -> io::Result<()> {
    println!(rt; "Blocks by set of holders")?;
    let batches = book.batches();
    for (i, batch) in batches.iter().enumerate() {
        if is_new(&batches[0..i], batch.holders) {
            let blocks = blocks_of_set(batches, batch.holders);
            print!(rt; "  {blocks:>6} ")?;
            print_holders(rt, book.machines(), batch.holders)?;
            println!(rt; "")?;
        }
    }
    Ok(())
}

pub(crate) fn print_moment(
    rt: &impl Print,
    book: &OpenBook<DayPace>,
    meter: &DayPace,
    moment: u64,
) -> io::Result<()> {
    println!(rt; "Capacities at moment {moment}")?;
    for machine in book.machines() {
        let number = machine.number;
        let capacity = meter.capacity(machine.terms, moment);
        println!(rt; "  {number:>5} {capacity:>7}")?;
    }
    let all = all_capacities(meter, book.machines(), moment);
    let blocks = all_blocks(book.batches());
    let reach = if all >= blocks {
        "reach"
    } else {
        "do not reach"
    };
    println!(rt; "  in all {all}: they {reach} the {blocks} blocks")
}

// No `Display` of the holders: their places are numbers by the book's machines only.
fn print_holders(rt: &impl Print, machines: &[Machine], holders: Places) -> io::Result<()> {
    for (place, machine) in machines.iter().enumerate() {
        if holders.contains(place) {
            let number = machine.number;
            print!(rt; " {number}")?;
        }
    }
    Ok(())
}
