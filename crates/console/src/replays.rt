// A whole past: any market files into an empty book, which is closed, and then any calls.
ghost use Rattle.std.specs.Prelude.{IfOk};
ghost use Rattle.console.specs.Played.{Replayed};

use crate::call::{Answer, Call};
use crate::state::Console;
use market::Book;
use std::alloc::{AllocError, Global};

// What the market files and the calls of a past were answered.
#[derive(Debug, PartialEq, Eq, Drop)]
pub struct Past {
    pub entered: Vec<Result<(), market::Refusal>>,
    pub answers: Vec<Answer>,
}

// Enters the market files into an empty book, closes it, and makes the calls: by loops, since of a closure that changes
// the book or the console a proof would know no answer.
pub fn replay(heap: Global, files: &[&[u8]], calls: &[Call<'_>]) -> Result<Past, AllocError>
    ensures { IfOk result (λ p. Replayed files.now calls.now p.entered.items p.answers.items) }
{
    let mut book = Book::open(heap)?;
    let mut entered = Vec::new(heap);
    for f in files {
        entered.push(book.enter(f))?;
    }
    let mut console = Console::closing(book);
    let mut answers = Vec::new(heap);
    for c in calls {
        answers.push(console.answer_to(c))?;
    }
    Ok(Past { entered, answers })
}
