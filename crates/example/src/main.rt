// The smallest use of the library: a kiosk asks a controller for readings, and what one end writes the other receives.
#![tactic(auto)]

mod controller;
mod kiosk;

use records::{OwnId, State};
use std::fmt;
use std::fmt::Write as _;
use std::io::Write;
use text::hex::SpacedOctets;
use text::out::Out;

// Operation 7, reading: class 2, argument and result of type 02, result optional; error 1, below detection: no parameter.
pub(crate) const TABLE: [u8; 34] = *b"\
    \x00\x01\x00\x10\x00\x01\x00\x18\x00\x01\x00\x1e\x00\x00\x00\x22\
    \x00\x00\x00\x07\x02\x02\x02\x02\
    \x00\x00\x00\x01\x00\x00\
    \x00\x00\x00\x00";

// An end: its state, and the store of the answers that it keeps, all of which each call is lent.
#[derive(Clone, Copy)]
pub(crate) struct End {
    pub(crate) state: State,
    pub(crate) store: [u8; State::STORE_OCTETS],
}

impl End {
    fn fresh() -> Self {
        End {
            state: State::fresh(),
            store: [0; State::STORE_OCTETS],
        }
    }
}

// The kiosk receives octets, and sends what it wrote then, as the Reject of an 18; an end that wrote no octets sends nothing. Outputs are arrays
// here and below, since there is no heap.
fn delivered(to: &mut Out<impl Write>, kiosk: &mut End, octets: &[u8]) -> fmt::Result {
    let mut out = [0u8; 32];
    let sent = kiosk::receive(kiosk, octets, &mut out, to);
    if sent.is_empty() {
        return Ok(());
    }
    writeln!(to, "kiosk sends{}", SpacedOctets(sent))
}

// The kiosk asks for a reading of a probe, and receives what the controller answers.
fn asked(
    to: &mut Out<impl Write>,
    kiosk: &mut End,
    controller: &mut End,
    id: OwnId,
    probe: &[u8],
) -> fmt::Result {
    let mut request = [0u8; 32];
    let mut answer = [0u8; 32];
    let sent = kiosk::ask(kiosk, id, probe, &mut request);
    if sent.is_empty() {
        return Ok(());
    }
    writeln!(to, "kiosk asks {}", SpacedOctets(sent))?;
    let answered = controller::receive(controller, sent, &mut answer);
    if answered.is_empty() {
        return Ok(());
    }
    delivered(to, kiosk, answered)
}

// Four readings that are asked for, and an answer that comes twice.
fn played(to: &mut Out<impl Write>) -> fmt::Result {
    let mut kiosk = End::fresh();
    let mut controller = End::fresh();
    asked(to, &mut kiosk, &mut controller, OwnId(1), b"\x02\x01\x01")?;
    asked(to, &mut kiosk, &mut controller, OwnId(2), b"\x02\x01\x02")?;
    asked(to, &mut kiosk, &mut controller, OwnId(3), b"\x02\x01\x03")?;
    // Ids and codes are the bits of signed numbers: this one is -1.
    let last = OwnId(0xFFFF_FFFF);
    asked(to, &mut kiosk, &mut controller, last, b"\x02\x01\x04")?;
    // An answer to invocation 1 once more: it is refused with 18, since that invocation is over.
    delivered(to, &mut kiosk, b"\xa2\x03\x02\x01\x01")
}

fn main(rt: HostRuntime) {
    let mut out = Out::new(rt.stdout());
    // What is put out is always taken, so that there is no error to pass on.
    let _ = played(&mut out);
    out.flush();
}
