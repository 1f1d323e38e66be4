// What came in, field by field, with the octets that it lies in.
use crate::shown::{Coded, Digits, OrNone};
use apdu::Span;
use apdu::parse::body_value;
use protocol::Indication;
use std::fmt;
use text::hex::Octets;

#[derive(Clone, Copy)]
pub(crate) struct Indicated<'a> {
    pub(crate) octets: &'a [u8],
    pub(crate) said: Indication,
}

impl<'a> Indicated<'a> {
    fn value(&self, value: Option<Span>) -> OrNone<Octets<'a>> {
        let octets = self.octets;
        OrNone(value.map(|span| Octets(span.of(octets))))
    }
}

impl fmt::Display for Indicated<'_> {
    fn fmt<W: fmt::Write>(&self, f: &mut fmt::Formatter<W>) -> fmt::Result {
        match self.said {
            Indication::Invoke {
                id,
                linked,
                code,
                argument,
            } => write!(
                f,
                "invoke {} {} {} {}",
                Digits(id.0),
                OrNone(linked.map(|id| Digits(id.0))),
                Coded(code),
                self.value(argument)
            ),
            Indication::Result {
                id,
                body,
                operation,
            } => {
                let code = body.and_then(|body| body.code).map(Coded);
                write!(
                    f,
                    "result {} {} {} op {}",
                    Digits(id.0),
                    OrNone(code),
                    self.value(body_value(body)),
                    Coded(operation)
                )
            }
            Indication::Error {
                id,
                code,
                parameter,
                operation,
            } => write!(
                f,
                "error {} {} {} op {}",
                Digits(id.0),
                Coded(code),
                self.value(parameter),
                Coded(operation)
            ),
            Indication::InvokeRejected { id, problem } => {
                write!(f, "reject-u {:08x} 81 {problem:02x}", id.0)
            }
            Indication::ResultRejected { id, problem } => {
                write!(f, "reject-u {:08x} 82 {problem:02x}", id.0)
            }
            Indication::ErrorRejected { id, problem } => {
                write!(f, "reject-u {:08x} 83 {problem:02x}", id.0)
            }
            Indication::GeneralReject { id, problem } => {
                write!(f, "reject-p {} 80 {problem:02x}", OrNone(id.map(Digits)))
            }
        }
    }
}
