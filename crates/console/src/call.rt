// The calls of a closed console, and what each is answered.
use crate::faults::Refusal;
use display::LINE_ROOM;

// What is asked of a console: a file to judge, with as many numbers of scratch, or the panel line, in a buffer of as many bytes.
#[derive(Clone, Copy, Debug, PartialEq, Eq)]
pub enum Call<'a> {
    Clearing { file: &'a [u8], scratch: usize },
    Tree { file: &'a [u8] },
    Price { file: &'a [u8] },
    Panel { room: usize },
}

// A clearing's welfare, a tree's bound, a price file's bound, or the length of the panel line with the 64 bytes that it opens.
// Three variants hold the same type, since each is named as the call that it answers. The panel's bytes stand beside the
// length, since a refused panel shows its bytes too.
#[derive(Clone, Copy, Debug, PartialEq, Eq)]
pub enum Answer {
    Clearing(Result<i64, Refusal>),
    Tree(Result<i64, Refusal>),
    Price(Result<i64, Refusal>),
    Panel(Result<usize, Refusal>, [u8; LINE_ROOM]),
}
