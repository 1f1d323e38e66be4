// Why octets are refused, as far as no table and no records are needed (docs/RULES.md, 'Receiving, in order of check').
use apdu::encode::write_reject;
use base::octets::between;
use std::fmt;
use std::fmt::Write as _;
use std::io::Write;
use text::hex::SpacedOctets;
use text::number::Signed;
use text::out::{Out, problem_name};

// What makes octets no right APDU.
#[derive(Clone, Copy)]
pub(crate) enum Fault {
    Unrecognized,
    Mistyped(Option<u32>),
    // Not well formed: the place of the first fault.
    Structure { at: usize },
}

impl Fault {
    // The general problem's number, as `write_reject` takes it.
    fn number(&self) -> u8 {
        match self {
            Fault::Unrecognized => 0,
            Fault::Mistyped(_) => 1,
            Fault::Structure { .. } => 2,
        }
    }

    // The invocation that the Reject names.
    fn id(&self) -> Option<u32> {
        match *self {
            Fault::Mistyped(id) => id,
            _ => None,
        }
    }
}

// The fields that an APDU with this first octet has.
fn fields(first: u8) -> &'static str {
    match first {
        0xA1 => {
            "an Invoke has an id (02, of 1 to 4 octets), at most one linked id (80, or 81 00), a code (02 or 06), at most one value"
        }
        0xA2 => {
            "a ReturnResult has an id (02, of 1 to 4 octets), then nothing, or a 30 that holds a code (02 or 06) and one value"
        }
        0xA3 => {
            "a ReturnError has an id (02, of 1 to 4 octets), a code (02 or 06), at most one value"
        }
        _ => {
            "a Reject has an id (02, of 1 to 4 octets), or 05 00 before an 80, then one problem: 80 (0 to 2), 81 (0 to 7), 82 (0 to 2) or 83 (0 to 4)"
        }
    }
}

// The place of the first fault is the first octet of an element, or the first one behind the APDU.
fn why_line(out: &mut Out<impl Write>, first: Option<u8>, fault: Fault) -> fmt::Result {
    match fault {
        Fault::Unrecognized => writeln!(
            out,
            "  the first octet is {:02x}: a1 is an Invoke, a2 a ReturnResult, a3 a ReturnError, a4 a Reject",
            first.unwrap_or(0)
        ),
        Fault::Mistyped(_) => writeln!(out, "  {}", fields(first.unwrap_or(0))),
        Fault::Structure { .. } if first.is_none() => writeln!(out, "  there are no octets"),
        Fault::Structure { at } => writeln!(
            out,
            "  these octets are not one well-formed element: the first fault is at octet {at}, by the tree's first column"
        ),
    }
}

// The Reject that the engine writes of a general problem, in an array, since there is no heap. No Display: the line is about the Reject and its invocation.
fn answer_line(out: &mut Out<impl Write>, fault: Fault) -> fmt::Result {
    let mut reject = [0u8; 16];
    let end = write_reject(&mut reject, fault.id(), 0x80, fault.number());
    write!(
        out,
        "  its Reject is{}",
        SpacedOctets(between(&reject, 0, end))
    )?;
    match fault.id() {
        None => writeln!(out, ", with no invocation"),
        Some(bits) => writeln!(out, ", with invocation {}", Signed(bits)),
    }
}

// Octets that are no right APDU: a general problem, or 17 if their first octet is a Reject's.
pub(crate) fn refused_lines(out: &mut Out<impl Write>, octets: &[u8], fault: Fault) -> fmt::Result {
    let first = octets.first().copied();
    if first == Some(0xA4) {
        writeln!(
            out,
            "refused with 17, unacceptable Reject; a Reject is never answered"
        )?;
        return why_line(out, first, fault);
    }
    write!(out, "refused with 18, ")?;
    problem_name(out, 0x80, fault.number());
    writeln!(out, "")?;
    why_line(out, first, fault)?;
    answer_line(out, fault)
}
