// The kiosk's end: it asks for readings, and takes what comes back.
// README shows its imports, `ask`, `receive` and `number_of` word for word: tests/readme compares them.
use crate::{End, TABLE};
use apdu::Span;
use apdu::parse::body_value;
use base::octets::between;
use ber::header::{Header, header_of};
use ber::integer::integer_of;
use codes::Code;
use protocol::Indication;
use records::OwnId;
use std::fmt::Write as _;
use std::io::Write;
use text::number::Signed;
use text::out::Out;

// Asks for a reading of a probe, and hands back the octets to send, none of a refused request. The end keeps the state then.
pub(crate) fn ask<'a>(end: &mut End, id: OwnId, probe: &[u8], out: &'a mut [u8]) -> &'a [u8] {
    let code = Code::Local(7);
    let r = rose::invoke(end.state, &end.store, &TABLE, id, code, None, probe, out);
    end.state = r.state;
    between(out, 0, r.written)
}

// The number that a value says: the value is a span of the received octets, here 02 01 0c, and its contents are 0c.
pub(crate) fn number_of(octets: &[u8], value: Span) -> Option<u32> {
    let element = value.of(octets);
    match header_of(element)? {
        Header::At { start, end, .. } => integer_of(Span { at: start, end }.of(element)),
        Header::Open { .. } => None,
    }
}

// Takes received octets, and hands back those to send.
pub(crate) fn receive<'a>(
    end: &mut End,
    octets: &[u8],
    out: &'a mut [u8],
    to: &mut Out<impl Write>,
) -> &'a [u8] {
    let r = rose::receive(end.state, &mut end.store, &TABLE, octets, out);
    end.state = r.state;
    match r.reception {
        // Of an 18 the Reject to send is written; of another refusal nothing is.
        Err(why) => show(to, "a refusal,", why.number() as u32),
        // A probe or an acknowledge, if the table has them: what to send is written.
        Ok(None) => {}
        // `id` is the invocation that is answered, and is over now.
        Ok(Some(Indication::Result { id, body, .. })) => match body_value(body) {
            None => show(to, "a result without a value, invocation", id.0),
            Some(value) => match number_of(octets, value) {
                Some(n) => show(to, "a reading of", n),
                None => show(to, "no number of 32 bits, invocation", id.0),
            },
        },
        // An error is no reading, and never a zero; `code` is 1, the only error in the table.
        Ok(Some(Indication::Error { id, .. })) => show(to, "below detection, invocation", id.0),
        Ok(Some(Indication::InvokeRejected { id, .. })) => show(to, "a reject, invocation", id.0),
        // The kiosk has no readings to give: it rejects, or the invocation would stay live.
        Ok(Some(Indication::Invoke { id, .. })) => {
            let r = rose::reject(end.state, &end.store, &TABLE, id, 3, out);
            end.state = r.state;
            return between(out, 0, r.written);
        }
        // The other three end no invocation.
        Ok(Some(_)) => {}
    }
    between(out, 0, r.written)
}

// A number by its two's complement bits. What is put out is always taken, so that there is no error to pass on.
fn show(to: &mut Out<impl Write>, what: &str, bits: u32) {
    let _ = writeln!(to, "kiosk got   {what} {}", Signed(bits));
}
