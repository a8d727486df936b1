// A market that no longer changes: the entries of a closed book.
use crate::book::Book;

mod reads;

#[derive(Drop)]
pub struct ClosedMarket {
    pub(crate) book: Book,
}
