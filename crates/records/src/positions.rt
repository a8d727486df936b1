// Where a reader stands in its file.
ghost use Rattle.std.specs.Prelude.{◌≡◌, length, nat_le};
ghost use Rattle.records.specs.Readers.{file_of, place_of};

use super::Reader;

impl<'a> Reader<'a> {
    // The offset of the next record.
    pub fn place(&self) -> usize
        ensures { result ≡ place_of self.now }
    {
        self.place
    }

    // Whether no byte is left.
    pub fn at_end(&self) -> bool
        ensures { result ≡ nat_le (length (file_of self.now)) (place_of self.now) }
    {
        self.file.len() <= self.place
    }
}
