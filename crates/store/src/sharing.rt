// A store that answers a request of late from memory, over any store.
ghost use Rattle.std.specs.Prelude.{◌≡◌, ℕ, ◌<◌, ◌≤◌};
ghost use Rattle.store.specs.Meaning.{Made};
ghost use Rattle.store.specs.Memory.{Remembers};
ghost use Rattle.store.specs.MemoryLaw.{remembers_prop};

use crate::meaning::{Store, StoreFault};
use crate::memory::Memory;
use code::construct::{Construct, Handle};

#[derive(Drop)]
pub struct Sharing<S: Store> {
    below: S,
    memory: Memory,
    pub ghost remembers: { Remembers (S.Store.code below) memory } by { remembers_prop (S.Store.code below) memory },
}

impl<S: Store> Sharing<S> {
    ghost use Rattle.store.specs.Moment.{moment};
    ghost use Rattle.store.specs.Sharing.{FreshLayer, LikeBelow};

    // The layer over a store, with nothing remembered.
    pub fn new(below: S) -> Sharing<S>
        ensures fresh { FreshLayer below result }
        ensures alike { LikeBelow (moment S.Store below) (moment S.Store result.below) }
    {
        let memory = Memory::new();
        Sharing { below, memory }
    }
}

impl<S: Store> Store for Sharing<S> {
    ghost use Rattle.store.specs.Sharing.{Shares};
    ghost use Rattle.std.proofs.Common.{rules};

    ghost code = { λ s. S.Store.code s.below };

    ghost units = { λ s. S.Store.units s.below };

    ghost price = { λ s. S.Store.price s.below };

    ghost small = { Prim.search rules };

    // A remembered request is answered from memory; any other goes below, and is noted where it is granted.
    fn make(&mut self, construct: Construct) -> Result<Handle, StoreFault>
        ensures made { Made (S.Store.code self.old.below) (S.Store.code self.new.below) (S.Store.units self.old.below) (S.Store.units self.new.below) (S.Store.price self.old.below) (S.Store.price self.new.below) construct result }
        ensures shares { Shares self.old construct result self.new }
    {
        if let Some(handle) = self.memory.recall(construct) {
            return Ok(handle);
        }
        let handle = self.below.make(construct)?;
        self.memory.note(construct, handle);
        Ok(handle)
    }

    fn look(&self, handle: Handle) -> Option<Construct> {
        self.below.look(handle)
    }

    fn free(&self) -> usize {
        self.below.free()
    }
}
