// The binders in whose bodies a place stands.
ghost use Rattle.std.specs.Prelude.{◌≡◌, ◌+◌, ◌^◌, ◌<◌, [], ◌∷◌, length};
ghost use Rattle.code.specs.Text.{number_of};
ghost use Rattle.text.specs.Around.{serials};

use crate::block::Block;

// The nearest block, and the binders around that one. A list on the stack, and no `Vec`: nothing allocates. It is
// no `Option` of a pair, since a type can't stand for its own pair.
#[derive(Drop)]
pub(crate) enum Binders<'a> {
    Nothing,
    Nearest(Block, &'a Binders<'a>),
}

// The binders, and how many they are.
#[derive(Drop)]
pub(crate) struct Around<'a> {
    binders: Binders<'a>,
    level: usize,
    ghost counted: { level ≡ length (serials binders) },
}

impl Around<'_> {
    pub(crate) fn nothing() -> Around<'static>
        ensures { serials result.binders ≡ [] }
    {
        Around {
            binders: Binders::Nothing,
            level: 0,
        }
    }

    // Around the body of one binder more.
    pub(crate) fn body(&self, serial: u16) -> Around<'_>
        requires { length (serials self.now.binders) + 1 < 2 ^ 64 }
        ensures { serials result.binders ≡ serial ∷ serials self.now.binders }
    {
        Around {
            binders: self.binders.body(serial),
            level: self.level + 1,
        }
    }

    // How many bodies the place stands in.
    pub(crate) fn level(&self) -> usize
        ensures { result ≡ length (serials self.now.binders) }
    {
        self.level
    }

    // How many bodies the nearest binder of the serial stands in.
    pub(crate) fn level_of(&self, serial: u16) -> usize
        ensures { result ≡ number_of (serials self.now.binders) serial }
    {
        self.binders.level_of(serial, self.level)
    }
}

impl Binders<'_> {
    // In the nearest block where it has room, and else in a block more.
    fn body(&self, serial: u16) -> Binders<'_>
        ensures { serials result ≡ serial ∷ serials self.now }
    {
        let (block, outer) = match self {
            Binders::Nearest(block, outer) if block.has_room() => (*block, *outer),
            _ => (Block::nothing(), self),
        };
        Binders::Nearest(block.body(serial), outer)
    }

    fn level_of(&self, serial: u16, level: usize) -> usize
        requires { level ≡ length (serials self.now) }
        ensures { result ≡ number_of (serials self.now) serial }
    {
        match self {
            Binders::Nothing => 0,
            Binders::Nearest(block, outer) => match block.position(serial) {
                Some(nearer) => level - 1 - nearer,
                None => outer.level_of(serial, level - block.serials().len()),
            },
        }
    }
}
