// A book's blocks, shared out among the machines that hold them.
ghost use Rattle.std.specs.Prelude.{◌≡◌, ℕ, ◌<◌, false, length};
ghost use Rattle.places.specs.Has.{has};
ghost use Rattle.theory.specs.Sums.{total};
ghost use Rattle.books.specs.Ranges.{holders_at};
ghost use Rattle.books.specs.Views.{machines_in, batches_in};
ghost use Rattle.shares.specs.Links.{links};
ghost use Rattle.shares.specs.Stations.{cell, leads_to};
ghost use Rattle.shares.specs.Tables.{batch_at};

use crate::station::Station;
use books::Book;

mod level;
mod moves;
mod paced;
mod read;
mod settle;

// Its type keeps that the share-out is complete, and where the links lead. So a function that moves blocks has to say that
// it keeps the book, and the width: shares in a type apart from the book could not be complete for its batches.
#[derive(Drop)]
pub struct Plan {
    book: Book,
    // a batch makes a link from so many blocks on
    width: u32,
    // of the machines, by their places
    stations: [Station; 32],
    ghost long: { length stations ≡ 32 },
    ghost elsewhere: { (b i : ℕ) → has (holders_at (batches_in book) b) i ≡ false → cell stations b i ≡ 0 },
    ghost adds_up: { (b : ℕ) → b < length (batches_in book) → total (length (machines_in book)) (cell stations b) ≡ (batch_at (batches_in book) b).blocks },
    ghost wide: { 0 < width },
    ghost linked: { (i j : ℕ) → i < length (machines_in book) → leads_to stations i j ≡ links width (batches_in book) (λ b. cell stations b i) j },
}
