// The machines and the batches of a book, as plain tables, and the plain calls behind those of open and settled books.
ghost use Rattle.std.specs.Prelude.{◌≡◌, ℕ, ◌+◌, ◌-◌, ◌≤◌, true, not, List, [], ◌∷◌, map, length, IfOk, OnOk, OnErr, if◌then◌else◌, Some, None, MatchResult, slice_index_or};
ghost use Rattle.std.specs.List.{list_all};
ghost use Rattle.fixed.specs.Items.{items};
ghost use Rattle.books.specs.Numbers.{among, ascending, Found, Missing};
ghost use Rattle.books.specs.Ranges.{batch_in_range, Manned, numbers_of, blocks_in};

use crate::batch::{Batch, check_batch};
use crate::edit::Edit;
use crate::lookup::{find, place_of};
use crate::machine::Machine;
use crate::refusal::{Refusal, refuse_if};
use crate::roster::Roster;
use fixed::FixedVec;
use places::Places;

#[derive(Drop)]
pub struct Book {
    roster: Roster,
    batches: FixedVec<Batch, 128>,
    // of all batches together
    blocks: u32,
    ghost ascends: { ascending (numbers_of (items batches)) ≡ true },
    ghost in_range: { list_all (batch_in_range (length (items roster.machines))) (items batches) ≡ true },
    ghost manned: { Manned (length (items roster.machines)) (items batches) },
    ghost summed: { blocks_in (items batches) ≡ blocks },
    ghost limited: { blocks ≤ 1000000 },
    ghost few: { length (items batches) ≤ 128 },
}

impl Book {
    ghost use Rattle.books.specs.Calls.{Hold, Drop, after};
    ghost use Rattle.books.specs.Edits.{edited, CanBeMade, Sound, Asked};
    ghost use Rattle.books.specs.Questions.{Load, first_told};
    ghost use Rattle.books.specs.Refusals.{handed, first_of, first_refusal, refusal_in};
    ghost use Rattle.books.specs.Standing.{machine_numbers, batch_numbers, all_blocks, more_blocks, fewer_blocks};
    ghost use Rattle.books.specs.Views.{mustered, batch_of, machines_in, batches_in, standing_of, IsRead, IsAbsent};

    // The machines, and no batch.
    pub fn new(roster: Roster) -> Book
        ensures holds_the_machines_and_no_batch { standing_of result ≡ mustered roster }
    {
        Book {
            roster,
            batches: FixedVec::new(Batch::default()),
            blocks: 0,
        }
    }

    pub fn machines(&self) -> &[Machine]
        ensures lends_the_machines { result.now ≡ machines_in self.now }
    {
        self.roster.machines()
    }

    pub fn batches(&self) -> &[Batch]
        ensures lends_the_batches { result.now ≡ batches_in self.now }
    {
        self.batches.as_slice()
    }

    // The batch with the number and its place, or else the place at which it would stand.
    pub fn find(&self, number: u32) -> Result<(usize, Batch), usize>
        ensures finds_the_place { MatchResult result (λ p. Found number (numbers_of (batches_in self.now)) p.0) (Missing number (numbers_of (batches_in self.now))) }
        ensures reads_the_batch { IfOk result (λ p. p.1 ≡ slice_index_or (batches_in self.now) p.0 p.1) }
        ensures tells_what_stands { MatchResult result (λ p. IsRead (standing_of self.now) number p.1) (λ _. IsAbsent (standing_of self.now) number) }
    {
        let batches = self.batches();
        let at = find(batches, number)?;
        Ok((at, batches[at]))
    }

    // The place of the batch with the number.
    pub fn place_of_batch(&self, number: u32) -> Result<usize, Refusal>
        ensures refuses_just_where_it_is_unknown { refusal_in result ≡ (if not (among number (batch_numbers (standing_of self.now).batches)) then Some Refusal.BatchUnknown else None) }
        ensures finds_the_place { IfOk result (Found number (numbers_of (batches_in self.now))) }
    {
        place_of(self.batches(), number, Refusal::BatchUnknown)
    }

    // The place of the machine with the number.
    pub fn place_of_machine(&self, number: u16) -> Result<usize, Refusal>
        ensures refuses_just_where_it_is_unknown { refusal_in result ≡ first_told (Load number) (standing_of self.now) }
        ensures finds_the_place { IfOk result (Found number (machine_numbers (machines_in self.now))) }
    {
        self.roster.place_of(number)
    }

    // The blocks of all batches together.
    pub fn blocks(&self) -> u32
        ensures counts_all_blocks { result ≡ all_blocks (standing_of self.now).batches }
    {
        self.blocks // the type keeps it
    }

    // Adds blocks to a batch, or starts the batch.
    pub fn hold(&mut self, number: u32, blocks: u32, holders: &[u16]) -> Result<(), Refusal>
        ensures refuses_by_the_first_check_that_applies { refusal_in result ≡ first_refusal (Hold number blocks holders.now) (standing_of self.old) }
        ensures changes_nothing_where_refused { OnErr result (self.new ≡ self.old) }
        ensures adds_the_blocks_where_accepted { OnOk result (standing_of self.new ≡ after (Hold number blocks holders.now) (standing_of self.old)) }
    {
        check_batch(number, blocks)?;
        let holders = self.roster.places_of(holders)?;
        let edit = self.edit_to_hold(Batch {
            number,
            blocks,
            holders,
        })?;
        refuse_if(self.blocks + blocks > 1_000_000, Refusal::BookPasses)?;
        self.apply(edit, self.blocks + blocks);
        Ok(())
    }

    // Takes blocks from a batch, which is removed with its last one.
    pub fn drop(&mut self, number: u32, blocks: u32) -> Result<(), Refusal>
        ensures refuses_by_the_first_check_that_applies { refusal_in result ≡ first_refusal (Drop number blocks) (standing_of self.old) }
        ensures changes_nothing_where_refused { OnErr result (self.new ≡ self.old) }
        ensures takes_the_blocks_where_accepted { OnOk result (standing_of self.new ≡ after (Drop number blocks) (standing_of self.old)) }
    {
        check_batch(number, blocks)?;
        let edit = self.edit_to_drop(number, blocks)?;
        self.apply(edit, self.blocks - blocks);
        Ok(())
    }

    // The change that adds the blocks of the batch that is asked for.
    fn edit_to_hold(&self, asked: Batch) -> Result<Edit, Refusal>
        ensures refuses_by_the_first_check_of_the_batch { (hs : List ℕ) → Asked (machines_in self.now) asked hs → refusal_in result ≡ first_of (Refusal.OtherHolders ∷ Refusal.BatchesFull ∷ Refusal.BatchPasses ∷ []) (handed (Hold asked.number asked.blocks hs)) (standing_of self.now) }
        ensures can_be_made { IfOk result (λ e. CanBeMade e (batches_in self.now)) }
        ensures leaves_the_batches_sound { IfOk result (λ e. (hs : List ℕ) → Asked (machines_in self.now) asked hs → Sound (length (machines_in self.now)) (edited e (batches_in self.now)) (self.now.blocks + asked.blocks)) }
        ensures adds_the_blocks { IfOk result (λ e. (hs : List ℕ) → Asked (machines_in self.now) asked hs → map (batch_of (machines_in self.now)) (edited e (batches_in self.now)) ≡ more_blocks asked.number asked.blocks hs (standing_of self.now).batches) }
    {
        match self.find(asked.number) {
            Ok((at, batch)) => {
                refuse_if(batch.holders != asked.holders, Refusal::OtherHolders)?;
                let total = batch.blocks.saturating_add(asked.blocks);
                refuse_if(total > 99_999, Refusal::BatchPasses)?;
                let more = Batch {
                    blocks: total,
                    ..batch
                };
                Ok(Edit::Replace(at, more))
            }
            Err(at) => {
                refuse_if(self.batches.is_full(), Refusal::BatchesFull)?;
                Ok(Edit::Insert(at, asked))
            }
        }
    }

    // The change that takes the blocks.
    fn edit_to_drop(&self, number: u32, blocks: u32) -> Result<Edit, Refusal>
        ensures refuses_by_the_first_check_of_the_batch { refusal_in result ≡ first_of (Refusal.BatchUnknown ∷ Refusal.BatchFewer ∷ []) (handed (Drop number blocks)) (standing_of self.now) }
        ensures can_be_made { IfOk result (λ e. CanBeMade e (batches_in self.now)) }
        ensures takes_no_more_than_stands { IfOk result (λ e. blocks ≤ self.now.blocks) }
        ensures leaves_the_batches_sound { IfOk result (λ e. Sound (length (machines_in self.now)) (edited e (batches_in self.now)) (self.now.blocks - blocks)) }
        ensures takes_the_blocks { IfOk result (λ e. map (batch_of (machines_in self.now)) (edited e (batches_in self.now)) ≡ fewer_blocks number blocks (standing_of self.now).batches) }
    {
        let (at, batch) = self.find(number).map_err(|_| Refusal::BatchUnknown)?;
        refuse_if(batch.blocks < blocks, Refusal::BatchFewer)?;
        if batch.blocks == blocks {
            return Ok(Edit::Remove(at));
        }
        let fewer = Batch {
            blocks: batch.blocks - blocks,
            ..batch
        };
        Ok(Edit::Replace(at, fewer))
    }

    // Writes a change after which the book has so many blocks. What it asks relates the change to the book, so no type of
    // either could keep it.
    fn apply(&mut self, edit: Edit, blocks: u32)
        requires can_be_made { CanBeMade edit (batches_in self.old) }
        requires leaves_the_batches_sound { Sound (length (machines_in self.old)) (edited edit (batches_in self.old)) blocks }
        requires few { blocks ≤ 1000000 }
        ensures writes_the_change { batches_in self.new ≡ edited edit (batches_in self.old) }
        ensures keeps_the_machines { self.new.roster ≡ self.old.roster }
    {
        match edit {
            Edit::Insert(at, batch) => self.batches.insert(at, batch),
            Edit::Replace(at, batch) => self.batches.replace(at, batch),
            Edit::Remove(at) => self.batches.remove(at),
        }
        self.blocks = blocks;
    }
}
