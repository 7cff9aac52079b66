// What a plan lets read.
ghost use Rattle.std.specs.Prelude.{◌≡◌, ℕ, ◌<◌, ◌&&◌, nat_le, nat_lt};
ghost use Rattle.places.specs.Has.{has};
ghost use Rattle.shares.specs.Plans.{machines_at, batches_at, share, load_at};

use super::Plan;
use books::Book;
use places::Places;

impl Plan {
    // The book whose blocks are shared out.
    pub fn book(&self) -> &Book
        ensures lends_the_book { result.now ≡ self.now.book }
    {
        &self.book
    }

    // The blocks that lie at the machine.
    pub fn load(&self, place: usize) -> u32
        requires place_stands { place < machines_at self.now }
        ensures gives_the_load { result ≡ load_at self.now place }
    {
        self.stations[place].load()
    }

    // The blocks of the batch that lie at the machine.
    pub fn share(&self, batch: usize, place: usize) -> u32
        requires batch_stands { batch < batches_at self.now }
        requires place_stands { place < machines_at self.now }
        ensures gives_the_share { result ≡ share self.now batch place }
    {
        self.stations[place].blocks_of(batch)
    }

    // The machines that have at least `width` blocks.
    pub(super) fn laden(&self) -> Places
        ensures holds_machines_with_enough_blocks { (i : ℕ) → has result i ≡ (nat_lt i (machines_at self.now) && nat_le self.now.width (load_at self.now i)) }
    {
        let mut laden = Places::empty();
        // over places, since they are what it gives: no plainer by going through the stations, some of which no machine has
        for i in 0..self.book.machines().len() {
            if self.load(i) >= self.width {
                laden = laden.with(i);
            }
        }
        laden
    }
}
