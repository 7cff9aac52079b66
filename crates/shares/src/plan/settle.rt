// The best share-out: a start, levelled at falling widths.
ghost use Rattle.std.specs.Prelude.{◌≡◌, ℕ, ◌<◌, length};
ghost use Rattle.places.specs.Has.{Lowest};
ghost use Rattle.books.specs.Ranges.{holders_at};
ghost use Rattle.books.specs.Views.{batches_in};
ghost use Rattle.shares.specs.Stations.{station_at, cell, Led};
ghost use Rattle.shares.specs.Plans.{LevelPlan};
ghost use Rattle.shares.specs.Tables.{Placed};

use super::Plan;
use crate::linking::Linking;
use crate::station::Station;
use books::Book;
use pace::Pace;

// Blocks are moved in large amounts first: each run leaves the next one little to do.
const WIDEST: u32 = 4_096;

const NARROWER: [u32; 3] = [512, 64, 8];

impl Plan {
    // Shares the blocks out so that no chain of moves helps.
    pub fn settle<P: Pace>(book: Book, pace: &P) -> Plan
        ensures keeps_the_book { result.book ≡ book }
        ensures leaves_no_chain_that_helps { LevelPlan 1 (P.Pace.table pace.now) result }
    {
        let mut plan = Plan::start(book);
        plan.level_down(pace);
        plan
    }

    // Levels at falling widths, down to single blocks.
    fn level_down<P: Pace>(&mut self, pace: &P)
        ensures keeps_the_book { self.new.book ≡ self.old.book }
        ensures leaves_no_chain_that_helps { LevelPlan 1 (P.Pace.table pace.now) self.new }
    {
        self.level(pace);
        for width in NARROWER {
            self.set_width(width);
            self.level(pace);
        }
        self.set_width(1);
        self.level(pace);
    }

    // Counts links from so many blocks on.
    fn set_width(&mut self, width: u32)
        requires wide { 0 < width }
        ensures keeps_the_book { self.new.book ≡ self.old.book }
        ensures sets_the_width { self.new.width ≡ width }
    {
        self.width = width;
        let linking = Linking::of(&self.book, width);
        find_all_links(&mut self.stations, linking);
    }

    // All blocks of each batch on its first holder.
    fn start(book: Book) -> Plan
        ensures keeps_the_book { result.book ≡ book }
    {
        let mut stations = place(&book);
        find_all_links(&mut stations, Linking::of(&book, WIDEST));
        Plan {
            book,
            width: WIDEST,
            stations,
        }
    }

    // The book, as it was.
    pub fn into_book(self) -> Book
        ensures gives_the_book_back { result ≡ self.book }
    {
        let Plan { book, .. } = self;
        book
    }
}

// All blocks of each batch at its first holder, and no link yet.
fn place(book: &Book) -> [Station; 32]
    ensures has_a_station_for_each_place { length result ≡ 32 }
    ensures gives_all_blocks_to_holders { Placed book.now (length (batches_in book.now)) (cell result) }
{
    let mut stations = [Station::empty(); 32];
    for (b, batch) in book.batches().iter().enumerate() {
        stations[first_holder(book, b)].add(b, batch.blocks);
    }
    stations
}

// Every batch of a book has a holder.
fn first_holder(book: &Book, batch: usize) -> usize
    requires stands { batch < length (batches_in book.now) }
    ensures gives_the_lowest_holder { Lowest (holders_at (batches_in book.now) batch) result }
{
    book.batches()[batch].holders.first().unwrap()
}

// Finds where the links of all machines lead.
fn find_all_links(stations: &mut [Station; 32], linking: Linking)
    ensures keeps_the_length { length stations.new ≡ length stations.old }
    ensures keeps_the_blocks { (b i : ℕ) → cell stations.new b i ≡ cell stations.old b i }
    ensures finds_where_the_links_lead { (i : ℕ) → i < 32 → Led linking.entry (station_at stations.new i) }
{
    for station in stations.iter_mut() {
        station.find_links(linking);
    }
}
