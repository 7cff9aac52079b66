// What makes a link: a batch of which a machine has at least `width` blocks leads from it to each of its holders.
ghost use Rattle.std.specs.Prelude.{◌≡◌, ◌<◌, ◌≤◌, length};
ghost use Rattle.books.specs.Views.{batches_in};

use books::{Batch, Book};

#[derive(Clone, Copy)]
pub(crate) struct Linking<'a> {
    pub(crate) batches: &'a [Batch],
    pub(crate) width: u32,
    ghost few: { length batches.now ≤ 128 },
    ghost wide: { 0 < width },
}

impl<'a> Linking<'a> {
    // By the batches of the book.
    pub(crate) fn of(book: &'a Book, width: u32) -> Linking<'a>
        requires wide { 0 < width }
        ensures takes_the_batches { result.batches.now ≡ batches_in book.now }
        ensures takes_the_width { result.width ≡ width }
    {
        Linking {
            batches: book.batches(),
            width,
        }
    }
}
