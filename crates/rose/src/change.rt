// What an accepted call changes.
ghost use Rattle.std.specs.Prelude.{◌≡◌, List, ℕ, true};
ghost use Rattle.records.specs.State.{sound_state};
ghost use Rattle.records.specs.Held.{Held, sound_held, keep_answer, drop_answer};
ghost use Rattle.optable.specs.Class.{class_number};
ghost use Rattle.protocol.specs.Check.{class_in};
ghost use Rattle.protocol.specs.Perform.{with_own, without_peer};
ghost use Rattle.protocol.specs.Receive.{with_peer};
ghost use Rattle.rose.specs.Changes.{after, without_invocation};

use crate::class::makes_record;
use codes::Code;
use optable::Class;
use protocol::Invocation;
use records::{OwnId, PeerId, Record, State};

// What a received APDU changes. `Unchanged` is no None: `after` has it as a change like the others.
#[derive(Clone, Copy)]
pub(crate) enum Change {
    Unchanged,
    // A peer record comes, and the kept answer of its id goes.
    Adds { id: PeerId, code: Code },
    // The kept answer of an id goes.
    Drops(PeerId),
    Retires(OwnId),
}

impl Change {
    // Of a sound state and its store.
    pub(crate) fn make(self, state: &mut State, store: &mut [u8])
        ensures { sound_held (record { state = state.old; store = store.old }) ≡ true → record { state = state.new; store = store.new } ≡ after (record { state = state.old; store = store.old }) self }
    {
        match self {
            Change::Unchanged => {}
            Change::Adds { id, code } => {
                state.peer.add(Record { id: id.0, code });
                state.kept.drop_answer(store, id.0);
            }
            Change::Drops(id) => state.kept.drop_answer(store, id.0),
            Change::Retires(id) => state.own.take_out(id.0),
        }
    }
}

// The peer record of an invocation goes, and its answer is kept where that is asked; of a sound state and its store.
pub(crate) fn answered(state: &mut State, store: &mut [u8], keeps: bool, id: PeerId, apdu: &[u8])
    ensures { sound_held (record { state = state.old; store = store.old }) ≡ true → record { state = state.new; store = store.new } ≡ keep_answer keeps (without_peer (record { state = state.old; store = store.old }) id.0) id apdu.now }
{
    state.peer.take_out(id.0);
    if keeps {
        state.kept.keep(store, id.0, apdu);
    }
}

// A peer record more, unless the class of its operation makes none, and no kept answer of its id.
pub(crate) fn arriving_record(class: Class, id: PeerId, code: Code) -> Change
    ensures { (T : List ℕ) (s : Held) → class_number class ≡ class_in T code → after s result ≡ drop_answer (with_peer T s id.0 code) id }
{
    if makes_record(class) {
        Change::Adds { id, code }
    } else {
        Change::Drops(id)
    }
}

// An own record comes, unless the class of its operation makes none.
pub(crate) fn add_own(state: &mut State, class: Class, id: OwnId, code: Code)
    ensures { (T : List ℕ) (store : List ℕ) → class_number class ≡ class_in T code → record { state = state.new; store = store } ≡ with_own T (record { state = state.old; store = store }) id.0 code }
{
    if makes_record(class) {
        state.own.add(Record { id: id.0, code });
    }
}

// The record of an invocation goes, and an own id rests then; of a sound state.
pub(crate) fn retire(state: &mut State, invocation: Invocation)
    ensures { (store : List ℕ) → sound_state state.old store ≡ true → state.new ≡ without_invocation state.old invocation }
{
    match invocation {
        Invocation::Own(id) => {
            state.own.take_out(id.0);
            state.resting.rest(id.0);
        }
        Invocation::Peer(id) => state.peer.take_out(id.0),
    }
}
