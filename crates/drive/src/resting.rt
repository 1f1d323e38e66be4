// The ids that rest: their part of a line, and those that a state image holds.
use base::octets::{four, two};
use records::{Resting, State};
use std::fmt;

// The count and the ids: those below the count, and those up to the last that is not 0.
#[derive(Clone, Copy)]
pub(crate) struct RestingLine<'a>(pub(crate) &'a Resting);

impl RestingLine<'_> {
    fn shown(&self) -> &[u32] {
        let ids = &self.0.ids;
        let used = ids.iter().rposition(|&id| id != 0).map_or(0, |i| i + 1);
        &ids[..used.max(self.0.count.min(State::RESTING))]
    }
}

impl fmt::Display for RestingLine<'_> {
    fn fmt<W: fmt::Write>(&self, f: &mut fmt::Formatter<W>) -> fmt::Result {
        write!(f, "{:04x}", self.0.count)?;
        for id in self.shown() {
            write!(f, " {id:08x}")?;
        }
        Ok(())
    }
}

// A count, then 64 ids; no octets are no ids.
pub(crate) fn resting_image(image: &[u8]) -> Resting {
    let mut ids = [0; State::RESTING];
    let octets = image.get(2..).unwrap_or(&[]).chunks_exact(4);
    for (id, octets) in ids.iter_mut().zip(octets) {
        *id = four(octets, 0);
    }
    Resting {
        count: usize::from(two(image, 0)),
        ids,
    }
}
