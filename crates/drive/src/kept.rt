// The kept answers: their part of a line, and those that a state image holds.
use crate::call::Store;
use crate::shown::OctetsOrDash;
use base::octets::{four, two};
use records::{Kept, KeptPlace, State};
use std::fmt;

// An answer's place, with its octets in the store.
#[derive(Clone, Copy)]
struct Answer<'a> {
    place: KeptPlace,
    octets: &'a [u8],
}

impl Answer<'_> {
    // The octets below the length, and those up to the last that is not 0.
    fn shown(&self) -> &[u8] {
        let last = self.octets.iter().rposition(|&octet| octet != 0);
        let used = last.map_or(0, |i| i + 1);
        let length = (self.place.length as usize).min(self.octets.len());
        &self.octets[..used.max(length)]
    }

    fn is_zero(&self) -> bool {
        self.place.id == 0 && self.place.length == 0 && self.octets.iter().all(|&octet| octet == 0)
    }
}

impl fmt::Display for Answer<'_> {
    fn fmt<W: fmt::Write>(&self, f: &mut fmt::Formatter<W>) -> fmt::Result {
        let KeptPlace { id, length } = self.place;
        write!(f, "{id:08x}:{length:04x}:{}", OctetsOrDash(self.shown()))
    }
}

// The count and the answers: those below the count, and those up to the last that is not all 0.
#[derive(Clone, Copy)]
pub(crate) struct KeptLine<'a> {
    pub(crate) kept: &'a Kept,
    pub(crate) store: &'a Store,
}

impl KeptLine<'_> {
    fn shown(&self) -> usize {
        let store = self.store;
        let octets = store.chunks_exact(State::ANSWER_OCTETS);
        let mut answers = self.kept.places.iter().zip(octets);
        let last = answers.rposition(|(&place, octets)| !Answer { place, octets }.is_zero());
        let used = last.map_or(0, |i| i + 1);
        used.max(self.kept.count.min(State::ANSWERS))
    }
}

impl fmt::Display for KeptLine<'_> {
    fn fmt<W: fmt::Write>(&self, f: &mut fmt::Formatter<W>) -> fmt::Result {
        write!(f, "{:04x}", self.kept.count)?;
        let store = self.store;
        let octets = store.chunks_exact(State::ANSWER_OCTETS);
        for (&place, octets) in self.kept.places.iter().zip(octets).take(self.shown()) {
            write!(f, " {}", Answer { place, octets })?;
        }
        Ok(())
    }
}

// A count, then 8 places of id, length and 512 octets, which go to the store; no octets are no answers.
pub(crate) fn kept_image(image: &[u8], store: &mut Store) -> Kept {
    let mut kept = Kept::fresh();
    kept.count = usize::from(two(image, 0));
    *store = [0; State::STORE_OCTETS];
    let answers = store.chunks_exact_mut(State::ANSWER_OCTETS);
    let places = image
        .get(2..)
        .unwrap_or(&[])
        .chunks_exact(6 + State::ANSWER_OCTETS);
    for ((place, answer), octets) in kept.places.iter_mut().zip(answers).zip(places) {
        place.id = four(octets, 0);
        place.length = u32::from(two(octets, 4));
        for (to, from) in answer.iter_mut().zip(octets.iter().skip(6)) {
            *to = *from;
        }
    }
    kept
}
