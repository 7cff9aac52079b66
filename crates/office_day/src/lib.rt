// The calls of one office day, each printed with its answer. A refused one changes nothing, and the day goes on; where
// printing fails, the calls after it are not put.
#![tactic(auto)]

ghost use Rattle.std.specs.Prelude.{◌≡◌, OnOk, IfOk};
ghost use Rattle.books.specs.Calls.{Hold, Drop};
ghost use Rattle.books.specs.Standing.{nothing};
ghost use Rattle.planner.specs.States.{in_muster, in_book};
ghost use Rattle.office_day.specs.Day.{tried, all_tried, enlist_alike, enlistments, morning_calls, afternoon_calls};

use pace::{Backlog, Even};
use planner::{Muster, OpenBook, Refusal};
use std::{fmt, io};

// even blocks after a backlog
pub type DayPace = Backlog<Even>;

// Three machines alike; one that has no number and one that is enlisted already are refused.
pub fn muster(rt: &impl Print, pace: DayPace) -> io::Result<Muster<DayPace>>
    ensures puts_the_enlistments { IfOk result (λ m. in_muster m ≡ all_tried enlistments nothing) }
{
    let mut muster = Muster::begin(pace);
    println!(rt; "Calls")?;
    enlist(rt, &mut muster, 1)?;
    enlist(rt, &mut muster, 2)?;
    enlist(rt, &mut muster, 3)?;
    enlist(rt, &mut muster, 0)?;
    enlist(rt, &mut muster, 2)?;
    Ok(muster)
}

// The batches of the morning; one for an unknown machine and one for other holders are refused.
pub fn morning(rt: &impl Print, book: &mut OpenBook<DayPace>) -> io::Result<()>
    ensures puts_the_calls_of_the_morning { OnOk result (in_book book.new ≡ all_tried morning_calls (in_book book.old)) }
{
    hold(rt, book, 10, 4, &[1])?;
    hold(rt, book, 20, 5, &[1, 2])?;
    hold(rt, book, 30, 3, &[2, 3])?;
    hold(rt, book, 40, 6, &[2, 9])?;
    hold(rt, book, 20, 1, &[2, 3])
}

// More blocks come and some go; a batch that does not stand and too many blocks are refused.
pub fn afternoon(rt: &impl Print, book: &mut OpenBook<DayPace>) -> io::Result<()>
    ensures puts_the_calls_of_the_afternoon { OnOk result (in_book book.new ≡ all_tried afternoon_calls (in_book book.old)) }
{
    hold(rt, book, 40, 6, &[2, 3])?;
    hold(rt, book, 50, 2, &[3])?;
    drop_blocks(rt, book, 40, 2)?;
    drop_blocks(rt, book, 50, 2)?;
    drop_blocks(rt, book, 50, 1)?;
    drop_blocks(rt, book, 10, 5)
}

fn enlist(rt: &impl Print, muster: &mut Muster<DayPace>, number: u16) -> io::Result<()>
    ensures puts_the_call { in_muster muster.new ≡ tried (enlist_alike number) (in_muster muster.old) }
{
    let answer = Answer(muster.enlist(number, 1, 1, 0));
    println!(rt; "  enlist machine {number}: {answer}")
}

fn hold(
    rt: &impl Print,
    book: &mut OpenBook<DayPace>,
    batch: u32,
    blocks: u32,
    holders: &[u16],
) -> io::Result<()>
    ensures puts_the_call { in_book book.new ≡ tried (Hold batch blocks holders.now) (in_book book.old) }
{
    let answer = Answer(book.hold(batch, blocks, holders));
    println!(rt; "  hold batch {batch}, blocks {blocks}, holders {holders:?}: {answer}")
}

fn drop_blocks(
    rt: &impl Print,
    book: &mut OpenBook<DayPace>,
    batch: u32,
    blocks: u32,
) -> io::Result<()>
    ensures puts_the_call { in_book book.new ≡ tried (Drop batch blocks) (in_book book.old) }
{
    let answer = Answer(book.drop(batch, blocks));
    println!(rt; "  drop batch {batch}, blocks {blocks}: {answer}")
}

// What a call answered, as it is printed.
#[derive(Clone, Copy)]
struct Answer(Result<(), Refusal>);

impl fmt::Display for Answer {
    fn fmt<W: fmt::Write>(&self, f: &mut fmt::Formatter<W>) -> fmt::Result {
        match self.0 {
            Ok(()) => write!(f, "accepted"),
            Err(refusal) => write!(f, "refused, {refusal}"),
        }
    }
}
