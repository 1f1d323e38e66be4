// A side of the state: its part of a line, and the side that a state image holds.
ghost use Rattle.std.specs.Prelude.{◌<◌};

use crate::shown::Coded;
use base::octets::{four, octet, two};
use codes::{Code, Name};
use records::{Record, Records, State};
use std::fmt;

// The count and the places: those below the count, and those up to the last that is not all 0.
#[derive(Clone, Copy)]
pub(crate) struct SideLine<'a>(pub(crate) &'a Records);

impl SideLine<'_> {
    // The same rule stands for ids that rest and for kept answers: one function over closures would be no shorter.
    fn shown(&self) -> &[Record] {
        let places = &self.0.places;
        let last = places
            .iter()
            .rposition(|place| place.id != 0 || place.code != Code::Local(0));
        let used = last.map_or(0, |i| i + 1);
        &places[..used.max(self.0.count.min(State::RECORDS))]
    }
}

impl fmt::Display for SideLine<'_> {
    fn fmt<W: fmt::Write>(&self, f: &mut fmt::Formatter<W>) -> fmt::Result {
        write!(f, "{:04x}", self.0.count)?;
        for place in self.shown() {
            write!(f, " {:08x}:{}", place.id, Coded(place.code))?;
        }
        Ok(())
    }
}

// A side of a state image: a count, then 32 places, each of an id and a code in so many octets.
fn side_of<F: Fn(&[u8]) -> Code>(image: &[u8], size: usize, code_of: F) -> Records
    requires size { 0 < size }
    requires codes { F.IsAlwaysCallable code_of }
{
    let mut side = Records::fresh();
    side.count = usize::from(two(image, 0));
    let places = image.get(2..).unwrap_or(&[]).chunks_exact(size);
    for (place, octets) in side.places.iter_mut().zip(places) {
        *place = Record {
            id: four(octets, 0),
            code: code_of(octets.get(4..).unwrap_or(&[])),
        };
    }
    side
}

// A side of an image without names: a code is a number.
pub(crate) fn local_image(image: &[u8]) -> Records {
    side_of(image, 8, |octets| Code::Local(four(octets, 0)))
}

// A side of an image with names.
pub(crate) fn side_image(image: &[u8]) -> Records {
    side_of(image, 21, code_image)
}

// The code that a length and 16 octets say: with length 0 a local one, if all behind its four octets are 0.
fn code_image(octets: &[u8]) -> Code {
    let name = Name {
        length: octet(octets, 0),
        octets: octets.last_chunk().copied().unwrap_or([0; 16]),
    };
    if name.length == 0 && name.octets[4..].iter().all(|&octet| octet == 0) {
        return Code::Local(four(&name.octets, 0));
    }
    Code::Global(name)
}
