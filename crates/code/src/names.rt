// The free names of a code, merged and removed.
ghost use Rattle.std.specs.Prelude.{◌≡◌, ℕ, ◌+◌, ◌<◌, ◌≤◌, [], ◌∷◌, ◌++◌, length, take, ◌==◌, IfNone, IfSome};
ghost use Rattle.code.specs.Names.{Ascending, BeginsWith, merge, without};
ghost use Rattle.code.specs.Places.{IsLaidOut};
ghost use Rattle.code.specs.PlacesLaw.{laid_out_prop};

use std::cmp::Ordering;

// At most 16 serials, ascending, each once. An array with its count, and no `ArrayVec`: names are copied with their
// cell, and a clone of an `ArrayVec` may fail. How they lie is a fact of the struct, and no model makes a list of them:
// plain data that holds a copied type with a model within an enum or an array is not handed on by value.
#[derive(Clone, Copy)]
pub struct Names {
    serials: [u16; 16],
    count: usize,
    pub ghost laid_out: { IsLaidOut serials count } by { laid_out_prop serials count },
}

impl Names {
    ghost use Rattle.code.specs.Serials.{names};

    // No name.
    pub fn none() -> Names
        ensures { names result ≡ [] }
    {
        Names {
            serials: [0; 16],
            count: 0,
        }
    }

    // A single name.
    pub fn one(serial: u16) -> Names
        ensures { names result ≡ serial ∷ [] }
    {
        let mut serials = [0; 16];
        serials[0] = serial;
        Names { serials, count: 1 }
    }

    // Whether there is none.
    pub fn is_empty(&self) -> bool
        ensures { result ≡ (length (names self.now) == 0) }
    {
        self.count == 0
    }

    // The names in their order.
    pub fn as_slice(&self) -> &[u16]
        ensures value { result.now ≡ names self.now }
        ensures few { length result.now ≤ 16 }
        ensures ascending { Ascending 0 result.now }
    {
        &self.serials[..self.count]
    }

    // One name more, above all others.
    fn push(&mut self, serial: u16)
        requires room { length (names self.old) < 16 }
        requires above { Ascending 0 (names self.old ++ serial ∷ []) }
        ensures { names self.new ≡ names self.old ++ serial ∷ [] }
    {
        self.serials[self.count] = serial;
        self.count += 1;
    }

    // The names of both, in one pass; the first 16, which are all of them where each is open.
    pub fn merge(&self, other: &Names) -> Names
        ensures { names result ≡ take 16 (merge (names self.now) (names other.now)) }
    {
        let mut merged = Names::none();
        let mut left = self.as_slice();
        let mut right = other.as_slice();
        // No `for`: it ends where both lists do, or with 16 names.
        while merged.count < 16 {
            let Some((serial, left_rest, right_rest)) = least(left, right) else {
                return merged;
            };
            merged.push(serial);
            left = left_rest;
            right = right_rest;
        }
        merged
    }

    // The names but one. Places and count are kept apart until all are written: in a `Names` each count would be waited
    // for before the next.
    pub fn without(&self, serial: u16) -> Names
        ensures { names result ≡ without serial (names self.now) }
    {
        let mut serials = [0; 16];
        let mut count = 0;
        for name in self.as_slice() {
            if *name != serial {
                serials[count] = *name;
                count += 1;
            }
        }
        Names { serials, count }
    }
}

// The least serial of two ascending lists, with what is left of each; none where both are empty.
fn least<'a>(a: &'a [u16], b: &'a [u16]) -> Option<(u16, &'a [u16], &'a [u16])>
    requires a { Ascending 0 a.now }
    requires b { Ascending 0 b.now }
    ensures none { IfNone result (merge a.now b.now ≡ []) }
    ensures some { IfSome result (λ next. BeginsWith a.now b.now next.0 next.1.now next.2.now) }
{
    let Some((x, left)) = a.split_first() else {
        let (y, right) = b.split_first()?;
        return Some((*y, a, right));
    };
    let Some((y, right)) = b.split_first() else {
        return Some((*x, left, b));
    };
    Some(match x.cmp(y) {
        Ordering::Less => (*x, left, b),
        Ordering::Greater => (*y, a, right),
        Ordering::Equal => (*x, left, right),
    })
}
