// The controller's end: it receives an Invoke, and answers it once.
// README shows its functions word for word: tests/readme compares them.
use crate::kiosk::number_of;
use crate::{End, TABLE};
use base::octets::between;
use codes::Code;
use protocol::{Indication, Requested};
use records::PeerId;

// Probe 1 reads 12, probe 2 is below detection, probe 3 is being cleaned; another argument is rejected as mistyped.
fn answer(end: &mut End, id: PeerId, probe: Option<u32>, out: &mut [u8]) -> Requested {
    let state = end.state;
    let store = &mut end.store;
    match probe {
        Some(1) => rose::result(state, store, &TABLE, id, b"\x02\x01\x0c", out),
        Some(2) => rose::error(state, store, &TABLE, id, Code::Local(1), b"", out),
        Some(3) => rose::result(state, store, &TABLE, id, b"", out),
        _ => rose::reject(state, store, &TABLE, id, 2, out),
    }
}

// Takes received octets, and hands back those to send.
pub(crate) fn receive<'a>(end: &mut End, octets: &[u8], out: &'a mut [u8]) -> &'a [u8] {
    let r = rose::receive(end.state, &mut end.store, &TABLE, octets, out);
    end.state = r.state;
    // Of an 18 the Reject to send is written; a Reject that came is not answered.
    let Ok(Some(Indication::Invoke { id, argument, .. })) = r.reception else {
        return between(out, 0, r.written);
    };
    let probe = argument.and_then(|value| number_of(octets, value));
    let r = answer(end, id, probe, out);
    end.state = r.state;
    between(out, 0, r.written)
}
