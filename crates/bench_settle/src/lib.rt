// Settle for a caller in C or Rust, to measure it (bench/README.md); it is no part of what the planner promises.
//
// Each call fills a book by the planner's own calls, settles it, reopens and settles it `again` times more, and
// writes out the loads. It answers 0, or the number of the first refusal.
#![tactic(auto)]

use pace::{Backlog, Even, Lots, Meter};
use planner::{Muster, OpenBook, Refusal};

// A machine as C fills it: flat, and so no `Machine` with its `Terms`.
#[repr(C)]
#[derive(Clone, Copy)]
pub struct MachineRow {
    pub number: u16,
    pub ticks: u16,
    pub lot: u16,
    pub backlog: u32,
}

// The holders as C hands a list: the first `holder_count` of the array count, at most 32.
#[repr(C)]
#[derive(Clone, Copy)]
pub struct BatchRow {
    pub blocks: u32,
    pub holder_count: u32,
    pub holders: [u16; 32],
}

// Settles by the even pace. C calls no generic function, so each pace has one of its own.
#[unsafe(no_mangle)]
pub extern "C" fn bench_settle_even(
    machines: &[MachineRow],
    batches: &[BatchRow],
    again: u32,
    loads: &mut [u32],
) -> u8 {
    number_of(settle(Even, machines, batches, again, loads))
}

// Settles by the pace in lots.
#[unsafe(no_mangle)]
pub extern "C" fn bench_settle_lots(
    machines: &[MachineRow],
    batches: &[BatchRow],
    again: u32,
    loads: &mut [u32],
) -> u8 {
    number_of(settle(Lots, machines, batches, again, loads))
}

// Settles by the even pace with backlogs.
#[unsafe(no_mangle)]
pub extern "C" fn bench_settle_backlog(
    machines: &[MachineRow],
    batches: &[BatchRow],
    again: u32,
    loads: &mut [u32],
) -> u8 {
    number_of(settle(Backlog(Even), machines, batches, again, loads))
}

// C has no `Result`: 0 stands for an accepted call, and no refusal has this number.
fn number_of(answer: Result<(), Refusal>) -> u8 {
    match answer {
        Ok(()) => 0,
        Err(refusal) => refusal.number(),
    }
}

fn settle<P: Meter + Drop>(
    pace: P,
    machines: &[MachineRow],
    batches: &[BatchRow],
    again: u32,
    loads: &mut [u32],
) -> Result<(), Refusal> {
    let mut settled = fill(pace, machines, batches)?.settle();
    for _ in 0..again {
        settled = settled.reopen().settle();
    }
    for (machine, load) in machines.iter().zip(loads.iter_mut()) {
        *load = settled.load(machine.number)?;
    }
    Ok(())
}

// The open book of these machines and batches, which are numbered from 1.
fn fill<P: Meter + Drop>(
    pace: P,
    machines: &[MachineRow],
    batches: &[BatchRow],
) -> Result<OpenBook<P>, Refusal> {
    let mut muster = Muster::begin(pace);
    for machine in machines {
        muster.enlist(machine.number, machine.ticks, machine.lot, machine.backlog)?;
    }
    let mut open = muster.open();
    for (batch, number) in batches.iter().zip(1..=u32::MAX) {
        let count = batch.holder_count.min(32) as usize;
        open.hold(number, batch.blocks, &batch.holders[..count])?;
    }
    Ok(open)
}
