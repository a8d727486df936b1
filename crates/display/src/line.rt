// The panel's line, put together in an array of its own and then put into a lent buffer. It is not written by `write!`,
// which promises nothing of when it succeeds, while a line that fits is always written.
ghost use Rattle.std.specs.Prelude.{◌≡◌, ◌+◌, ◌≤◌, ◌++◌, length};
ghost use Rattle.arrayvec.specs.ArrayString.{array_string_len};
ghost use Rattle.display.specs.Line.{Put, shown, line_length, with_line};

use arrayvec::ArrayString;
use itoa::Buffer;

// The bytes that a line may take: two numbers of 20 digits, and the words.
pub const LINE_ROOM: usize = 64;

// The amount in decimal, or a dash where there is none.
fn push_amount(line: &mut ArrayString<LINE_ROOM>, amount: Option<u64>)
    requires { array_string_len line.old + 20 ≤ 64 }
    ensures bytes { line.new.bytes ≡ line.old.bytes ++ shown amount }
    ensures bound { array_string_len line.new ≤ array_string_len line.old + 20 }
{
    match amount {
        Some(n) => line.push_str(Buffer::new().format(n)),
        None => line.push('-'),
    }
}

// Puts a text at the start of the buffer, and says where it ends.
fn put_text(buffer: &mut [u8], text: &[u8]) -> usize
    requires { length text.now ≤ length buffer.old }
    ensures { Put buffer.old buffer.new 0 text.now result }
{
    buffer[..text.len()].copy_from_slice(text);
    text.len()
}

// Writes the line at the start of the buffer and says how long it is; a buffer of fewer than 64 bytes is left alone.
pub fn write_line(buffer: &mut [u8], gap: Option<u64>, cost: Option<u64>) -> Option<usize>
    ensures answer { result ≡ line_length (length buffer.old) gap cost }
    ensures after { buffer.new ≡ with_line buffer.old gap cost }
{
    if buffer.len() < LINE_ROOM {
        return None;
    }
    let mut line = ArrayString::new();
    line.push_str("GAP ");
    push_amount(&mut line, gap);
    line.push_str(" COST ");
    push_amount(&mut line, cost);
    line.push('\n');
    Some(put_text(buffer, line.as_str().as_bytes()))
}
