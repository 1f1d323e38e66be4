// What stands inside octets that should be one element: the arguments of probe and acknowledge ('Probe and acknowledge').
ghost use Rattle.std.specs.Prelude.{◌≡◌};
ghost use Rattle.apdu.specs.Inside.{only_frame, inside, id_in};

use crate::field::number_under;
use base::octets::between;
use ber::element::{Frame, frame_of, well_formed};
use records::State;

// The frame of octets that are exactly one element.
#[tactic(auto, unfolding(crate::specs::Inside::only_frame))]
fn only_frame(s: &[u8]) -> Option<Frame>
    ensures { result ≡ only_frame s.now }
{
    if !well_formed(s, State::LEVELS) {
        return None;
    }
    frame_of(s)
}

// The contents of octets that are exactly one element with the identifier; else no octets.
#[tactic(auto, using(crate::proofs::InsideAnswers::inside_none, crate::proofs::InsideAnswers::inside_other))]
pub fn inside(identifier: u8, s: &[u8]) -> &[u8]
    ensures { result.now ≡ inside identifier s.now }
{
    match only_frame(s) {
        Some(frame) if frame.id == identifier => between(s, frame.start, frame.stop),
        _ => &[],
    }
}

// The id that octets are, exactly one 02 of 1 to 4 content octets.
#[tactic(auto, using(crate::proofs::InsideAnswers::id_none, crate::proofs::InsideAnswers::id_framed))]
pub fn id_in(s: &[u8]) -> Option<u32>
    ensures { result ≡ id_in s.now }
{
    let frame = only_frame(s)?;
    number_under(0x02, frame.id, between(s, frame.start, frame.stop))
}
