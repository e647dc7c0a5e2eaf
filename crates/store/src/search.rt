// One search for every kind of entry whose sameness is an equivalence.
ghost use Rattle.std.specs.Prelude.{◌↔◌, IsTrue};
ghost use Rattle.store.specs.Search.{First};

// A trait beside `Eq`: entries that count as the same may differ, as two requests answered by other handles.
pub trait Sameness {
    // when two entries count as the same
    ghost same: { Self → Self → Type 0 };

    fn is_same(&self, other: &Self) -> bool
        ensures { IsTrue result ↔ same self.now other.now };

    ghost reflexive: { (x : Self) → same x x };

    ghost symmetric: { (x y : Self) → same x y → same y x };

    ghost transitive: { (x y z : Self) → same x y → same y z → same x z };
}

// The first place of an entry the same as the wanted one, or none.
pub fn find<E: Sameness>(entries: &[E], wanted: &E) -> Option<usize>
    ensures { First E.Sameness.same wanted.now entries.now result }
{
    entries.iter().position(|entry| entry.is_same(wanted))
}
