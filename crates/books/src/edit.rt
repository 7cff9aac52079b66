// One change of the batches of a book: what a call has decided on, before it is written, so that a refused call writes
// nothing. An enum and no closure, since one that a function makes and hands out would have to be boxed.
use crate::batch::Batch;

#[derive(Clone, Copy)]
pub(crate) enum Edit {
    Insert(usize, Batch),
    Replace(usize, Batch),
    Remove(usize),
}
