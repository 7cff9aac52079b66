// What lies at one machine, and the links that lead from it.
ghost use Rattle.std.specs.Prelude.{◌≡◌, ℕ, ◌+◌, ◌^◌, ◌<◌, ◌≤◌, true, false, length, ◌==◌};
ghost use Rattle.places.specs.Has.{has};
ghost use Rattle.theory.specs.Sums.{total, only};
ghost use Rattle.shares.specs.Cells.{nth};
ghost use Rattle.shares.specs.Links.{links, Widest};

use crate::linking::Linking;
use places::Places;

// Its type keeps that the load is the sum of the blocks.
#[derive(Clone, Copy)]
pub(crate) struct Station {
    // of each batch
    blocks: [u32; 128],
    // of all batches together
    load: u32,
    // where the links lead
    next: Places,
    ghost long: { length blocks ≡ 128 },
    ghost summed: { load ≡ total 128 (nth blocks) },
}

impl Station {
    ghost use Rattle.shares.specs.Stations.{Led};

    // No block and no link.
    pub(crate) fn empty() -> Station
        ensures has_no_block { (b : ℕ) → nth result.blocks b ≡ 0 }
        ensures has_no_link { (j : ℕ) → has result.next j ≡ false }
    {
        Station {
            blocks: [0; 128],
            load: 0,
            next: Places::empty(),
        }
    }

    pub(crate) fn load(&self) -> u32
        ensures gives_the_load { result ≡ self.now.load }
    {
        self.load
    }

    pub(crate) fn blocks_of(&self, batch: usize) -> u32
        requires inside { batch < 128 }
        ensures gives_the_blocks { result ≡ nth self.now.blocks batch }
    {
        self.blocks[batch]
    }

    pub(crate) fn next(&self) -> Places
        ensures gives_where_the_links_lead { result ≡ self.now.next }
    {
        self.next
    }

    // Adds blocks of the batch; the links stay as they were.
    pub(crate) fn add(&mut self, batch: usize, blocks: u32)
        requires inside { batch < 128 }
        requires fits { self.old.load + blocks < 2 ^ 32 }
        ensures adds_the_blocks { (b : ℕ) → nth self.new.blocks b ≡ nth self.old.blocks b + only (b == batch) blocks }
        ensures adds_to_the_load { self.new.load ≡ self.old.load + blocks }
        ensures keeps_the_links { self.new.next ≡ self.old.next }
    {
        self.blocks[batch] += blocks;
        self.load += blocks;
    }

    // Adds blocks of the batch, which may make a link.
    pub(crate) fn gain(&mut self, linking: Linking, batch: usize, blocks: u32)
        requires stands { batch < length linking.batches.now }
        requires fits { self.old.load + blocks < 2 ^ 32 }
        ensures adds_the_blocks { (b : ℕ) → nth self.new.blocks b ≡ nth self.old.blocks b + only (b == batch) blocks }
        ensures adds_to_the_load { self.new.load ≡ self.old.load + blocks }
        ensures keeps_where_the_links_lead { Led linking.entry self.old → Led linking.entry self.new }
    {
        self.add(batch, blocks);
        if self.blocks[batch] >= linking.width {
            self.next = self.next.union(linking.batches[batch].holders);
        }
    }

    // Takes blocks of the batch away, which may leave it no link.
    #[tactic(auto, using(crate::proofs::Blocks::blocks_within))]
    pub(crate) fn lose(&mut self, linking: Linking, batch: usize, blocks: u32)
        requires stands { batch < length linking.batches.now }
        requires there { blocks ≤ nth self.old.blocks batch }
        ensures takes_the_blocks { (b : ℕ) → nth self.old.blocks b ≡ nth self.new.blocks b + only (b == batch) blocks }
        ensures takes_from_the_load { self.old.load ≡ self.new.load + blocks }
        ensures keeps_where_the_links_lead { Led linking.entry self.old → Led linking.entry self.new }
    {
        self.blocks[batch] -= blocks;
        self.load -= blocks;
        if self.blocks[batch] < linking.width {
            self.next = self.led_to(linking);
        }
    }

    // Finds where the links lead. A machine whose load is below the width has none.
    pub(crate) fn find_links(&mut self, linking: Linking)
        ensures keeps_the_blocks { self.new.blocks ≡ self.old.blocks }
        ensures keeps_the_load { self.new.load ≡ self.old.load }
        ensures finds_where_the_links_lead { Led linking.entry self.new }
    {
        self.next = if self.load < linking.width {
            Places::empty()
        } else {
            self.led_to(linking)
        };
    }

    // Where the links lead.
    fn led_to(&self, linking: Linking) -> Places
        ensures holds_where_the_links_lead { (j : ℕ) → has result j ≡ links linking.entry.width linking.entry.batches.now (nth self.now.blocks) j }
    {
        let mut places = Places::empty();
        // by index into the blocks: a zip with them misses the bar of speed
        for (b, batch) in linking.batches.iter().enumerate() {
            if self.blocks[b] >= linking.width {
                places = places.union(batch.holders);
            }
        }
        places
    }

    // Of the batches that lead to place j, the first of which the machine has the most blocks, and how many these are.
    pub(crate) fn widest_link(&self, linking: Linking, j: usize) -> (usize, u32)
        requires linked { links linking.width linking.batches.now (nth self.now.blocks) j ≡ true }
        ensures gives_a_widest_link { Widest linking.entry.width linking.entry.batches.now (nth self.now.blocks) j result.0 }
        ensures gives_its_blocks { result.1 ≡ nth self.now.blocks result.0 }
    {
        // as `led_to`; max_by_key would give the last of equals
        let mut widest = 0;
        let mut most = 0;
        for (b, batch) in linking.batches.iter().enumerate() {
            let blocks = self.blocks[b];
            if blocks > most && batch.holders.contains(j) {
                widest = b;
                most = blocks;
            }
        }
        (widest, most)
    }
}
