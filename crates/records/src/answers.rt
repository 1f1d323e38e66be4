// The kept answers: docs/RULES.md, 'Kept answers'.
ghost use Rattle.std.specs.Prelude.{◌≡◌, ◌<◌, ◌≤◌, ◌*◌, ◌&&◌, [], length, drop};
ghost use Rattle.std.specs.List.{list_all};
ghost use Rattle.records.specs.Limits.{answers, answer_octets, store_octets};
ghost use Rattle.records.specs.Numbers.{all_zero, each_once, none_among};
ghost use Rattle.records.specs.Records.{view, ids_of};
ghost use Rattle.records.specs.Kept.{kept_places, place_ids, pack_kept, answer_place, sound_kept, is_free, all_short, clear_behind};
ghost use Rattle.records.specs.Steps.{kept_closed, store_closed, kept_put, kept_next, store_next, kept_less, store_less};

use crate::ids::each_once;
use crate::{Kept, KeptPlace, Records, State};
use ber::output::put_octets;

impl KeptPlace {
    pub const UNUSED: KeptPlace = KeptPlace { id: 0, length: 0 };

    // Whether the place is 0.
    fn is_free(&self) -> bool
        ensures { result ≡ is_free self.now }
    {
        (self.id == 0) & (self.length == 0)
    }
}

// Whether octets are all 0. All are looked at, so that several are at a time. For ids it stands once more: a trait of both would be longer than this.
#[tactic(auto, using(crate::proofs::FoldLaws::fold_zero))]
fn are_zero(octets: &[u8]) -> bool
    ensures { result ≡ all_zero octets.now }
{
    octets.iter().fold(0, |used, &octet| used | octet) == 0
}

// Whether the octets of all places from `place` on are 0. Place by place: one walk over the store was tried, and takes more instructions.
fn are_clear_from(place: usize, store: &[u8]) -> bool
    requires within { place ≤ answers }
    requires whole { length store.now ≡ store_octets }
    ensures { result ≡ all_zero (drop (answer_octets * place) store.now) }
{
    for i in place..State::ANSWERS {
        let at = i * State::ANSWER_OCTETS;
        if !are_zero(&store[at..at + State::ANSWER_OCTETS]) {
            return false;
        }
    }
    true
}

// Whether each length is at most 512, and the octets that no answer uses are 0.
fn is_store_clear(places: &[KeptPlace], store: &[u8]) -> bool
    requires few { length places.now ≤ answers }
    requires whole { length store.now ≡ store_octets }
    ensures { result ≡ (all_short places.now && clear_behind places.now store.now) }
{
    for (i, place) in places.iter().enumerate() {
        let used = place.length as usize;
        if State::ANSWER_OCTETS < used {
            return false;
        }
        let at = i * State::ANSWER_OCTETS;
        if !are_zero(&store[at + used..at + State::ANSWER_OCTETS]) {
            return false;
        }
    }
    are_clear_from(places.len(), store)
}

impl Kept {
    #[tactic(auto, unfolding(crate::specs::Kept::pack_kept))]
    pub fn fresh() -> Self
        ensures { result ≡ pack_kept [] }
    {
        Kept {
            count: 0,
            places: [KeptPlace::UNUSED; State::ANSWERS],
        }
    }

    // The places of kept answers.
    pub fn as_slice(&self) -> &[KeptPlace]
        ensures { result.now ≡ kept_places self.now }
    {
        if self.count < State::ANSWERS {
            &self.places[..self.count]
        } else {
            &self.places
        }
    }

    // Where the answer to the id stands.
    pub fn place(&self, id: u32) -> Option<usize>
        ensures { result ≡ answer_place id self.now }
    {
        self.as_slice().iter().position(|place| place.id == id)
    }

    // Whether no id stands twice. The ids stand in an array, since there is no heap.
    fn is_distinct(&self) -> bool
        ensures { result ≡ each_once (place_ids (kept_places self.now)) }
    {
        let kept = self.as_slice();
        let mut ids = [0; State::ANSWERS];
        for (i, place) in kept.iter().enumerate() {
            ids[i] = place.id;
        }
        each_once(&ids[..kept.len()])
    }

    // Whether none of these has the id of a record.
    fn is_apart_from(&self, records: &Records) -> bool
        ensures { result ≡ none_among (place_ids (kept_places self.now)) (ids_of (view records.now)) }
    {
        self.as_slice()
            .iter()
            .all(|place| !records.contains(place.id))
    }

    // The places behind those of kept answers.
    fn behind(&self) -> &[KeptPlace]
        ensures { result.now ≡ drop self.now.count self.now.places }
    {
        if self.count < State::ANSWERS {
            &self.places[self.count..]
        } else {
            &[]
        }
    }

    // Whether the places behind these are 0.
    fn is_free_behind(&self) -> bool
        ensures { result ≡ list_all is_free (drop self.now.count self.now.places) }
    {
        self.behind().iter().all(|place| place.is_free())
    }

    // Whether these are sound beside the peer's records.
    #[tactic(auto, unfolding(crate::specs::Kept::sound_kept))]
    pub fn is_sound(&self, store: &[u8], peer: &Records) -> bool
        ensures { result ≡ sound_kept (view peer.now) self.now store.now }
    {
        if store.len() != State::STORE_OCTETS || State::ANSWERS < self.count {
            return false;
        }
        self.is_distinct()
            && self.is_apart_from(peer)
            && self.is_free_behind()
            && is_store_clear(self.as_slice(), store)
    }

    // The answer in a place leaves.
    fn close(&mut self, place: usize)
        requires within { place < answers }
        requires some { 1 ≤ self.old.count }
        ensures { self.new ≡ kept_closed self.old place }
    {
        self.places.copy_within(place + 1.., place);
        self.places[State::ANSWERS - 1] = KeptPlace::UNUSED;
        self.count -= 1;
    }

    // An answer of so many octets takes the next place.
    fn put(&mut self, id: u32, octets: usize)
        requires room { self.old.count < answers }
        requires short { octets ≤ answer_octets }
        ensures { self.new ≡ kept_put self.old id octets }
    {
        self.places[self.count] = KeptPlace {
            id,
            length: octets as u32,
        };
        self.count += 1;
    }

    // The answer to the id goes last, and the oldest of eight makes room; one of over 512 octets is not kept.
    pub fn keep(&mut self, store: &mut [u8], id: u32, apdu: &[u8])
        ensures places { length self.old.places ≡ answers }
        ensures kept { self.new ≡ kept_next self.old store.old id apdu.now }
        ensures store { store.new ≡ store_next self.old store.old apdu.now }
    {
        if State::ANSWER_OCTETS < apdu.len() {
            return;
        }
        if store.len() != State::STORE_OCTETS {
            return;
        }
        if State::ANSWERS < self.count {
            return;
        }
        if self.count == State::ANSWERS {
            close_octets(0, store);
            self.close(0);
        }
        put_octets(store, self.count * State::ANSWER_OCTETS, apdu);
        self.put(id, apdu.len());
    }

    // The answer to the id leaves, if one is kept.
    pub fn drop_answer(&mut self, store: &mut [u8], id: u32)
        ensures places { length self.old.places ≡ answers }
        ensures kept { self.new ≡ kept_less self.old store.old id }
        ensures store { store.new ≡ store_less self.old store.old id }
    {
        if store.len() != State::STORE_OCTETS {
            return;
        }
        if let Some(place) = self.place(id) {
            close_octets(place, store);
            self.close(place);
        }
    }
}

// The octets of a place leave.
fn close_octets(place: usize, store: &mut [u8])
    requires store { length store.old ≡ store_octets }
    requires within { place < answers }
    ensures { store.new ≡ store_closed store.old place }
{
    let at = place * State::ANSWER_OCTETS;
    store.copy_within(at + State::ANSWER_OCTETS.., at);
    store[State::STORE_OCTETS - State::ANSWER_OCTETS..].fill(0);
}
