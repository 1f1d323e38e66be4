// The channel towards an end, and the end.
use crate::answer::refusal_words;
use apdu::Span;
use arrayvec::ArrayVec;
use base::octets::between;
use ber::header::{Header, header_of};
use protocol::{Received, Refusal};
use records::State;
use std::fmt;
use std::fmt::Write as _;
use std::io::Write;
use text::hex::SpacedOctets;
use text::out::Out;

// What the channel took last, one APDU or two, of which the span is the next to arrive.
#[derive(Drop)]
pub(crate) struct Channel {
    octets: ArrayVec<u8, 32>,
    next: Span,
}

impl Channel {
    fn empty() -> Self {
        Channel {
            octets: ArrayVec::new(),
            next: Span { at: 0, end: 0 },
        }
    }

    pub(crate) fn arriving(&self) -> &[u8] {
        self.next.of(self.octets.as_slice())
    }

    // Behind what arrived the second of two APDUs arrives, or else the same once more.
    pub(crate) fn advance(&mut self) {
        let at = self.next.end;
        let end = self.octets.len();
        if at < end {
            self.next = Span { at, end };
        }
    }

    // Takes the octets that a call wrote, if there are any: the first of the APDUs arrives first; what another library wrote is one APDU.
    pub(crate) fn send(
        &mut self,
        to: &mut Out<impl Write>,
        sender: &str,
        written: &[u8],
    ) -> fmt::Result {
        if written.is_empty() {
            return Ok(());
        }
        let end = match header_of(written) {
            Some(Header::At { end, .. }) => end,
            _ => written.len(),
        };
        let second = between(written, end, written.len());
        writeln!(
            to,
            "   {sender:<17}{}",
            SpacedOctets(between(written, 0, end))
        )?;
        if !second.is_empty() {
            writeln!(to, "   {sender:<17}{}", SpacedOctets(second))?;
        }
        self.octets.clear();
        // No APDU of this day is longer.
        let _ = self.octets.try_extend_from_slice(written);
        self.next = Span { at: 0, end };
        Ok(())
    }

    // The same of a request, which sends nothing where it is refused.
    pub(crate) fn request(
        &mut self,
        to: &mut Out<impl Write>,
        sender: &str,
        outcome: Result<(), Refusal>,
        written: &[u8],
    ) -> fmt::Result {
        match outcome {
            Ok(()) => self.send(to, sender, written),
            Err(why) => {
                write!(to, "   {sender:<18}nothing: ")?;
                refusal_words(to, why)?;
                writeln!(to, "")
            }
        }
    }
}

// An end: its state, the store of its kept answers, all of which each call is lent, and the channel towards it.
#[derive(Drop)]
pub(crate) struct End {
    pub(crate) state: State,
    pub(crate) store: [u8; State::STORE_OCTETS],
    pub(crate) channel: Channel,
}

impl End {
    pub(crate) fn fresh() -> Self {
        End {
            state: State::fresh(),
            store: [0; State::STORE_OCTETS],
            channel: Channel::empty(),
        }
    }

    // Receives what is on the channel.
    pub(crate) fn receive(&mut self, table: &[u8], out: &mut [u8]) -> Received {
        let octets = self.channel.arriving();
        let r = rose::receive(self.state, &mut self.store, table, octets, out);
        self.state = r.state;
        r
    }
}
