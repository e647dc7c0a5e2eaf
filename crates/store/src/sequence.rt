// Requests to any store in turn, each with its answer.
ghost use Rattle.std.specs.Prelude.{◌≡◌, ℕ, min, length, take, drop};
ghost use Rattle.store.specs.Moment.{moment};
ghost use Rattle.store.specs.Sequence.{Told, AskedEach};

use crate::meaning::{Store, StoreFault};
use code::construct::{Construct, Handle};

// What may be asked of a store.
#[derive(Clone, Copy, Debug, PartialEq, Eq)]
pub enum Request {
    Make(Construct),
    Look(Handle),
}

// What a store may answer.
#[derive(Clone, Copy, Debug, PartialEq, Eq)]
pub enum Answer {
    Made(Result<Handle, StoreFault>),
    Looked(Option<Construct>),
}

fn ask<S: Store>(store: &mut S, request: Request) -> Answer
    ensures told { Told (moment S.Store store.old) request result (moment S.Store store.new) }
{
    // Data, not closures: a list of requests is what the promise speaks of.
    match request {
        Request::Make(construct) => Answer::Made(store.make(construct)),
        Request::Look(handle) => Answer::Looked(store.look(handle)),
    }
}

// Asks each in turn, as many as there is place for answers, and tells how many; what a store has answered it never takes back.
pub fn ask_each<S: Store>(store: &mut S, requests: &[Request], answers: &mut [Answer]) -> usize
    ensures count { result ≡ min (length requests.now) (length answers.old) }
    ensures asked { AskedEach (moment S.Store store.old) (take result requests.now) (take result answers.new) (moment S.Store store.new) }
    ensures rest { drop result answers.new ≡ drop result answers.old }
{
    let count = requests.len().min(answers.len());
    // Written by place: what an adapter of `iter_mut` lends is not known afterwards.
    for (at, request) in requests[..count].iter().enumerate() {
        answers[at] = ask(store, *request);
    }
    count
}
