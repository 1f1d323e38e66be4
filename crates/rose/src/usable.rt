// What a call works on: a sound state with its store, and a valid table that has the operation of each live record.
ghost use Rattle.std.specs.Prelude.{◌≡◌, ◌==◌, true, false, ◌≤◌, length, Some, IfOk, MatchOption};
ghost use Rattle.std.specs.List.{list_any};
ghost use Rattle.records.specs.Limits.{records};
ghost use Rattle.records.specs.Records.{view, member};
ghost use Rattle.records.specs.State.{sound_state};
ghost use Rattle.optable.specs.Lookup.{operation_in, class_of};
ghost use Rattle.protocol.specs.Check.{covered, shared, is_busy};
ghost use Rattle.rose.specs.Places.{Stand, IsLive};
ghost use Rattle.records.specs.Held.{Held};
ghost use Rattle.rose.specs.Steps.{Checked};

use crate::check::refuse_if;
use crate::class::is_of;
use codes::{Code, Place};
use optable::{Class, Operation, Table};
use protocol::Refusal;
use records::{OwnId, PeerId, Record, Records, State};

#[derive(Clone, Copy)]
pub(crate) struct Usable<'a> {
    pub state: &'a State,
    pub store: &'a [u8],
    pub table: Table<'a>,
    // Where the operation of each live record stands in the table: in arrays, since there is no heap.
    own: [u16; State::RECORDS],
    peer: [u16; State::RECORDS],
    ghost sound: { sound_state state.now store.now ≡ true },
    ghost own_places: { Stand table.octets.now own (view state.now.own) },
    ghost peer_places: { Stand table.octets.now peer (view state.now.peer) },
}

// Puts down where the operation of each record stands, if the table has it.
#[tactic(auto, using(crate::proofs::PlaceLaws::uncovered, crate::proofs::PlaceLaws::stand_next))]
fn find_places(table: &Table, live: &[Record], places: &mut [u16; State::RECORDS]) -> Option<()>
    requires { length live.now ≤ records }
    ensures { MatchOption result (covered table.now.octets.now live.now ≡ false) (λ p. Stand table.now.octets.now places.new live.now) }
{
    for (i, record) in live.iter().enumerate() {
        places[i] = table.operation_place(record.code)?;
    }
    Some(())
}

// An invocation that was found: what it is of, and where that stands in the table.
#[derive(Clone, Copy)]
pub(crate) struct Live {
    pub code: Code,
    pub place: Place,
    pub operation: Operation,
}

impl<'a> Usable<'a> {
    // An unsound state and an invalid table are refused first in every call.
    #[tactic(auto, using(crate::proofs::PlaceLaws::stand_covered), unfolding(protocol::specs::Check::usable, protocol::specs::Reading::read_refusal))]
    pub(crate) fn new(state: &'a State, store: &'a [u8], octets: &'a [u8]) -> Result<Self, Refusal>
        ensures checked { Checked (shared octets.now (record { state = state.now; store = store.now })) result }
        ensures same { IfOk result (λ u. (◌≡◌ {A = Held} (record { state = u.state.now; store = u.store.now }) (record { state = state.now; store = store.now })) × (u.table.octets.now ≡ octets.now)) }
    {
        refuse_if(!state.is_sound(store), Refusal::UnsoundState)?;
        let table = Table::new(octets).map_err(|_| Refusal::InvalidTable)?;
        let mut own = [0; State::RECORDS];
        let mut peer = [0; State::RECORDS];
        find_places(&table, state.own.as_slice(), &mut own).ok_or(Refusal::InvalidTable)?;
        find_places(&table, state.peer.as_slice(), &mut peer).ok_or(Refusal::InvalidTable)?;
        Ok(Usable {
            state,
            store,
            table,
            own,
            peer,
        })
    }

    // The invocation with the id among records whose operations stand there.
    fn found(&self, records: &Records, places: &[u16; State::RECORDS], id: u32) -> Option<Live>
        requires { Stand self.now.table.octets.now places.now (view records.now) }
        ensures { MatchOption result (member id (view records.now) ≡ false) (IsLive self.now.table.octets.now (view records.now) id) }
    {
        let i = records.place(id)?;
        let place = Some(places[i]);
        let operation = self.table.operation_at(place)?;
        Some(Live {
            code: records.as_slice()[i].code,
            place,
            operation,
        })
    }

    // The invocation that this end made with the id.
    pub(crate) fn own(&self, id: OwnId) -> Option<Live>
        ensures { MatchOption result (member id.0 (view self.now.state.now.own) ≡ false) (IsLive self.now.table.octets.now (view self.now.state.now.own) id.0) }
    {
        self.found(&self.state.own, &self.own, id.0)
    }

    // The invocation that this end received with the id.
    pub(crate) fn peer(&self, id: PeerId) -> Option<Live>
        ensures { MatchOption result (member id.0 (view self.now.state.now.peer) ≡ false) (IsLive self.now.table.octets.now (view self.now.state.now.peer) id.0) }
    {
        self.found(&self.state.peer, &self.peer, id.0)
    }

    // Whether an invocation of class 1 that this end made is live.
    #[tactic(auto, using(crate::proofs::PlaceLaws::busy_places))]
    pub(crate) fn is_busy(&self) -> bool
        ensures { result ≡ is_busy self.now.table.octets.now (view self.now.state.now.own) }
    {
        let live = self.state.own.as_slice().len();
        has_synchronous(&self.table, &self.own[..live])
    }
}

// Whether an operation at one of the places is of class 1.
fn has_synchronous(table: &Table, places: &[u16]) -> bool
    ensures { result ≡ list_any (λ p. class_of (operation_in table.now.octets.now (Some p)) == 1) places.now }
{
    places.iter().any(|&place| is_synchronous(table, place))
}

fn is_synchronous(table: &Table, place: u16) -> bool
    ensures { result ≡ (class_of (operation_in table.now.octets.now (Some place)) == 1) }
{
    match table.operation_at(Some(place)) {
        Some(operation) => is_of(operation.class, Class::Synchronous),
        None => false,
    }
}
