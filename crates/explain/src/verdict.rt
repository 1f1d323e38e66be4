// What the APDU says, or why it is refused.
use crate::refusal::{Fault, refused_lines};
use crate::said::said_lines;
use apdu::Parsed;
use apdu::parse::parse;
use records::State;
use std::fmt;
use std::fmt::Write as _;
use std::io::Write;
use text::out::Out;

pub(crate) fn verdict(out: &mut Out<impl Write>, octets: &[u8]) -> fmt::Result {
    if octets.len() > State::OCTETS {
        writeln!(out, "refused with 3, long input")?;
        return writeln!(
            out,
            "  an APDU has at most {} octets, these are {}",
            State::OCTETS,
            octets.len()
        );
    }
    match parse(octets) {
        Parsed::BadlyStructured { at } => refused_lines(out, octets, Fault::Structure { at }),
        Parsed::Unrecognized => refused_lines(out, octets, Fault::Unrecognized),
        Parsed::Mistyped(id) => refused_lines(out, octets, Fault::Mistyped(id)),
        said => {
            said_lines(out, octets, said)?;
            writeln!(
                out,
                "this is the APDU alone: what depends on a table or on records is not judged"
            )
        }
    }
}
