// The octets of the lent APDU between two places, and the elements there: 'The four APDUs'.
ghost use Rattle.std.specs.Prelude.{◌≡◌};
ghost use Rattle.base.specs.Octets.{part};
ghost use Rattle.apdu.specs.Steps.{field_at, frame_at};

use base::octets::between;
use ber::element::{Frame, frame_of};
use ber::header::{Header, header_of};

// The octets of the lent APDU from `at` up to `end`.
#[derive(Clone, Copy)]
pub(crate) struct Part<'a> {
    pub(crate) apdu: &'a [u8],
    pub(crate) at: usize,
    pub(crate) end: usize,
}

impl<'a> Part<'a> {
    pub(crate) fn octets(&self) -> &'a [u8]
        ensures { result.now ≡ part self.now.apdu.now self.now.at self.now.end }
    {
        between(self.apdu, self.at, self.end)
    }

    // The contents of an element that was found here.
    pub(crate) fn contents(&self, frame: Frame) -> &'a [u8]
        ensures { result.now ≡ part self.now.apdu.now frame.start frame.stop }
    {
        between(self.apdu, frame.start, frame.stop)
    }

    // All octets of the field that was found at the start.
    pub(crate) fn whole(&self, field: Frame) -> &'a [u8]
        ensures { result.now ≡ part self.now.apdu.now self.now.at field.stop }
    {
        between(self.apdu, self.at, field.stop)
    }

    // The field at the start. Every one but a value and a result's 30 is primitive, and has a definite length.
    #[tactic(auto, using(crate::proofs::MovedFrame::field_fits), unfolding(crate::specs::Steps::field_at, crate::specs::Steps::definite_frame, crate::specs::Steps::moved_frame))]
    pub(crate) fn field(&self) -> Option<Frame>
        ensures { result ≡ field_at self.now.apdu.now self.now.at self.now.end }
    {
        match header_of(self.octets())? {
            Header::At {
                id,
                start,
                end: stop,
            } => Some(Frame {
                id,
                start: self.at + start,
                stop: self.at + stop,
            }),
            Header::Open { id: _, start: _ } => None,
        }
    }

    // The element that is to fill these octets.
    #[tactic(auto, using(crate::proofs::MovedFrame::frame_fits), unfolding(crate::specs::Steps::frame_at, crate::specs::Steps::moved_frame))]
    pub(crate) fn frame(&self) -> Option<Frame>
        ensures { result ≡ frame_at self.now.apdu.now self.now.at self.now.end }
    {
        let frame = frame_of(self.octets())?;
        Some(Frame {
            id: frame.id,
            start: self.at + frame.start,
            stop: self.at + frame.stop,
        })
    }
}
