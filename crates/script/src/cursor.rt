// A place in a script.
ghost use Rattle.std.specs.Prelude.{◌≡◌, ◌≤◌, length, drop, nat_le, slice_index};
ghost use Rattle.script.specs.Steps.{known_kind, read_step, read_value, read_place};

use crate::kind::Kind;
use crate::step::{Misread, Step};

#[derive(Drop)]
pub struct Cursor<'a> {
    script: &'a [u8],
    place: usize,
    ghost within: { place ≤ length script.now },
}

impl<'a> Cursor<'a> {
    // At the script's start.
    pub fn new(script: &'a [u8]) -> Cursor<'a>
        ensures script { result.script.now ≡ script.now }
        ensures place { result.place ≡ 0 }
    {
        Cursor { script, place: 0 }
    }

    pub fn place(&self) -> usize
        ensures { result ≡ self.now.place }
    {
        self.place
    }

    // Whether nothing is left.
    pub fn is_done(&self) -> bool
        ensures { result ≡ nat_le (length self.now.script.now) self.now.place }
    {
        self.place >= self.script.len()
    }

    // The bytes that are left.
    pub fn rest(&self) -> &'a [u8]
        ensures { result.now ≡ drop self.now.place self.now.script.now }
    {
        &self.script[self.place..]
    }

    // To the end: nothing is left.
    pub(crate) fn finish(&mut self)
        ensures script { self.new.script.now ≡ self.old.script.now }
        ensures place { self.new.place ≡ length self.old.script.now }
    {
        self.place = self.script.len();
    }

    // The kind of the step that the bytes left begin with.
    pub(crate) fn kind(&self) -> Result<Kind, Misread>
        ensures { result ≡ known_kind (slice_index self.now.script.now self.now.place) }
    {
        let byte = self.rest().first().ok_or(Misread::UnknownKind)?;
        Kind::try_from(*byte)
    }

    // The step that the bytes left begin with; the cursor goes past it, or stays where it is at a misreading.
    pub fn step(&mut self) -> Result<Step, Misread>
        ensures value { result ≡ read_value (read_step self.old.script.now self.old.place) }
        ensures after { self.new.place ≡ read_place self.old.place (read_step self.old.script.now self.old.place) }
        ensures script { self.new.script.now ≡ self.old.script.now }
    {
        let [byte, body @ ..] = self.rest() else {
            return Err(Misread::UnknownKind);
        };
        let kind = Kind::try_from(*byte)?;
        let step = kind.decode(body)?;
        self.place += 1 + kind.body_length();
        Ok(step)
    }
}
