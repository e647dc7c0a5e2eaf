// Serials side by side.
ghost use Rattle.std.specs.Prelude.{◌≡◌, ◌==◌, ◌<◌, ◌≤◌, [], ◌∷◌, ◌↔◌, IsTrue, length, drop, position};

// With fewer a search follows more references; with more each frame of a binder's body takes more of the stack.
const PLACES: usize = 8;

// Some binders' serials, from the place `first` on, the nearest first. They stand side by side, since a search
// that had to follow a reference for each would wait for memory each time.
#[derive(Clone, Copy)]
pub(crate) struct Block {
    places: [u16; PLACES],
    first: usize,
    ghost within: { first ≤ length places },
}

impl Block {
    pub(crate) fn nothing() -> Block
        ensures none { drop result.first result.places ≡ [] }
        ensures room { 0 < result.first }
    {
        Block {
            places: [0; PLACES],
            first: PLACES,
        }
    }

    pub(crate) fn has_room(&self) -> bool
        ensures { IsTrue result ↔ 0 < self.now.first }
    {
        self.first > 0
    }

    // The block, and a serial before it.
    pub(crate) fn body(&self, serial: u16) -> Block
        requires { 0 < self.now.first }
        ensures { drop result.first result.places ≡ serial ∷ drop self.now.first self.now.places }
    {
        let mut places = self.places;
        let first = self.first - 1;
        places[first] = serial;
        Block { places, first }
    }

    pub(crate) fn serials(&self) -> &[u16]
        ensures { result.now ≡ drop self.now.first self.now.places }
    {
        &self.places[self.first..]
    }

    // How many serials stand before the first that is equal.
    pub(crate) fn position(&self, serial: u16) -> Option<usize>
        ensures { result ≡ position (λ place. place == serial) (drop self.now.first self.now.places) }
    {
        if self.has_room() {
            return self.serials().iter().position(|place| *place == serial);
        }
        // every block but the nearest is full, and a search through a known number of places is unrolled
        self.places.iter().position(|place| *place == serial)
    }
}
