// The last requests that were granted, in a plain table.
ghost use Rattle.std.specs.Prelude.{◌≡◌};

use crate::search::{Sameness, find};
use code::construct::{Construct, Handle};
use std::marker::Model;

// How many requests are remembered.
const MOST: usize = 64;

// A request, and the handle that answered it.
#[derive(Clone, Copy, Debug, PartialEq, Eq)]
pub struct Remembered {
    pub request: Construct,
    pub handle: Handle,
}

// What fills a place before its first use.
impl Default for Remembered {
    ghost use Rattle.store.specs.Memory.{blank};

    ghost is_default = { λ remembered. remembered ≡ blank };

    fn default() -> Remembered {
        Remembered {
            request: Construct::Number(0),
            handle: Handle { number: 0 },
        }
    }
}

impl Sameness for Remembered {
    ghost use Rattle.store.specs.Memory.{SameRequest};
    ghost use Rattle.std.proofs.Common.{rules};

    ghost same = { SameRequest };

    ghost reflexive = { Prim.search rules };

    ghost symmetric = { Prim.search rules };

    ghost transitive = { Prim.search rules };

    fn is_same(&self, other: &Remembered) -> bool {
        self.request == other.request
    }
}

// The last 64 requests: the first `count` entries; the place `next` is written next, over the oldest entry once the
// table is full. An array with its count, and no `ArrayVec`: a memory is copied, as that never is. What its places keep
// is the invariant of a model that holds the same three fields, since a loan in the store below leaves a struct that
// is copied no ghost field.
#[derive(Clone, Copy)]
pub struct Memory {
    pub entries: [Remembered; MOST],
    pub count: usize,
    pub next: usize,
}

impl Model for Memory {
    ghost use Rattle.store.specs.Kept.{Kept, InOrder};
    ghost use Rattle.store.specs.Inside.{kept_of, memory_of};

    ghost Value = { Kept };

    ghost view = { kept_of };

    ghost invariant = { λ memory. InOrder (kept_of memory) };

    ghost inverse = { memory_of };
}

impl Memory {
    ghost use Rattle.store.specs.Memory.{EmptyMemory, Asked, Noted};

    // Nothing remembered.
    pub fn new() -> Memory
        ensures { EmptyMemory result }
    {
        Memory {
            entries: [Remembered::default(); MOST],
            count: 0,
            next: 0,
        }
    }

    // The handle that answered the request, where it is remembered.
    pub(crate) fn recall(&self, request: Construct) -> Option<Handle>
        ensures { Asked self.now request result }
    {
        let wanted = Remembered {
            request,
            ..Remembered::default()
        };
        let place = find(&self.entries[..self.count], &wanted)?;
        Some(self.entries[place].handle)
    }

    // Remembers one request more, in the place of the oldest where the table is full.
    pub(crate) fn note(&mut self, request: Construct, handle: Handle)
        ensures { Noted self.old request handle self.new }
    {
        self.entries[self.next] = Remembered { request, handle };
        self.next = (self.next + 1) % MOST;
        self.count = (self.count + 1).min(MOST);
    }
}
