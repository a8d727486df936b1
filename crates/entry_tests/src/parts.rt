// Parts of a file, each after two bytes that say how long it is.
ghost use Rattle.std.specs.Prelude.{length};
ghost use Rattle.std.specs.Iterator.{at_most};

#[derive(Drop)]
pub struct Parts<'a> {
    pub bytes: &'a [u8],
}

impl<'a> Iterator for Parts<'a> {
    type Item = &'a [u8];

    ghost remaining = { λ parts. at_most (length parts.bytes.now) };

    // The next part, where it is all there.
    fn next(&mut self) -> Option<&'a [u8]> {
        let [high, low, rest @ ..] = self.bytes else {
            return None;
        };
        let size = usize::from(u16::from_be_bytes([*high, *low]));
        let (part, more) = rest.split_at_checked(size)?;
        self.bytes = more;
        Some(part)
    }
}
