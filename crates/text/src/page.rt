// A page: a lent output, and the place where its text goes on.
ghost use Rattle.std.specs.Prelude.{◌≡◌, ◌++◌};
ghost use Rattle.text.specs.Page.{Writes, output_of, place_of, listed};

use itoa::{Buffer, Integer};

// What does not fit is left out and still counted. A write can't fail, so this is no `fmt::Write`.
#[derive(Drop)]
pub struct Page<'a> {
    out: &'a mut [u8],
    place: usize,
}

impl<'a> Page<'a> {
    // A page whose text goes on at the place.
    pub fn new(out: &'a mut [u8], place: usize) -> Page<'a>
        ensures output { output_of result ≡ out.entry }
        ensures place { place_of result ≡ place }
    {
        Page { out, place }
    }

    // The place after the text.
    pub fn place(&self) -> usize
        ensures { result ≡ place_of self.now }
    {
        self.place
    }

    // Lays the text from the place on, and goes to the place after it.
    pub fn put(&mut self, text: &[u8])
        ensures { Writes self.old text.now self.new }
    {
        let start = self.place;
        self.place = self.place.saturating_add(text.len());
        // past the output only the place moves: a text is mostly counted first, over an output of no bytes
        if start >= self.out.len() {
            return;
        }
        let room = self.out.len() - start;
        // a text that fits is copied whole: its length is mostly known where it is put, and the room never is
        if text.len() <= room {
            self.out[start..start + text.len()].copy_from_slice(text);
            return;
        }
        self.out[start..].copy_from_slice(&text[..room]);
    }

    // The digits of a number, after a minus sign where it is negative. Not inlined, since its buffer would stand in
    // each frame of `put_code_in`.
    #[inline(never)]
    pub fn put_number<I: Integer>(&mut self, number: I)
        ensures { Writes self.old (I.text number) self.new }
    {
        let mut buffer = Buffer::new();
        self.put(buffer.format(number).as_bytes());
    }

    // A word, then a number.
    pub fn put_word_number<I: Integer>(&mut self, word: &[u8], number: I)
        ensures { Writes self.old (word.now ++ I.text number) self.new }
    {
        self.put(word);
        self.put_number(number);
    }

    // A blank and its serial for each.
    pub fn put_serials(&mut self, serials: &[u16])
        ensures { Writes self.old (listed serials.now) self.new }
    {
        for serial in serials {
            self.put_word_number(b" ", *serial);
        }
    }
}
