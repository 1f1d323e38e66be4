// What an APDU says, field by field.
use crate::octets::FirstOctets;
use apdu::problem::ProblemKind;
use apdu::{Parsed, Span};
use codes::Code;
use std::fmt;
use std::fmt::Write as _;
use std::io::Write;
use text::hex::Octets;
use text::number::Signed;
use text::out::{Out, problem_name};

// A code: one that is none equals no table's. Not Code's own Display, since each program has its own words for a code.
#[derive(Clone, Copy)]
struct Coded(Option<Code>);

impl fmt::Display for Coded {
    fn fmt<W: fmt::Write>(&self, f: &mut fmt::Formatter<W>) -> fmt::Result {
        match self.0 {
            Some(Code::Local(bits)) => write!(f, "{}", Signed(bits)),
            Some(Code::Global(name)) => write!(f, "name {}", Octets(name.contents())),
            None => write!(
                f,
                "over four octets, or a name of over 16: equals no table's code"
            ),
        }
    }
}

// A value with its place in the octets; a space stands before it.
#[derive(Clone, Copy)]
struct Valued<'a> {
    octets: &'a [u8],
    value: Option<Span>,
}

impl fmt::Display for Valued<'_> {
    fn fmt<W: fmt::Write>(&self, f: &mut fmt::Formatter<W>) -> fmt::Result {
        let octets = self.octets;
        match self.value {
            Some(span) => {
                let shown = FirstOctets(span.of(octets));
                write!(f, "{shown}, from {} up to {}", span.at, span.end)
            }
            None => write!(f, " none"),
        }
    }
}

// A number with these two's complement bits, or `none`.
#[derive(Clone, Copy)]
struct Number(Option<u32>);

impl fmt::Display for Number {
    fn fmt<W: fmt::Write>(&self, f: &mut fmt::Formatter<W>) -> fmt::Result {
        match self.0 {
            Some(bits) => write!(f, "{}", Signed(bits)),
            None => write!(f, "none"),
        }
    }
}

// The number stays one, as Parsed hands it on.
fn reject_lines(
    out: &mut Out<impl Write>,
    id: Option<u32>,
    kind: ProblemKind,
    number: u8,
) -> fmt::Result {
    writeln!(out, "Reject")?;
    writeln!(out, "  invocation  {}", Number(id))?;
    write!(out, "  problem     ")?;
    problem_name(out, kind.into(), number);
    writeln!(out, "")
}

pub(crate) fn said_lines(out: &mut Out<impl Write>, octets: &[u8], said: Parsed) -> fmt::Result {
    match said {
        Parsed::Invoke {
            id,
            linked,
            code,
            value,
        } => {
            writeln!(out, "Invoke")?;
            writeln!(out, "  invocation  {}", Signed(id.0))?;
            writeln!(out, "  linked to   {}", Number(linked.map(|id| id.0)))?;
            writeln!(out, "  operation   {}", Coded(code))?;
            writeln!(out, "  argument   {}", Valued { octets, value })
        }
        Parsed::Result { id, body } => {
            writeln!(out, "ReturnResult")?;
            writeln!(out, "  invocation  {}", Signed(id.0))?;
            let Some(body) = body else {
                return writeln!(out, "  no value");
            };
            let value = Some(body.value);
            writeln!(out, "  operation   {}", Coded(body.code))?;
            writeln!(out, "  value      {}", Valued { octets, value })
        }
        Parsed::Error { id, code, value } => {
            writeln!(out, "ReturnError")?;
            writeln!(out, "  invocation  {}", Signed(id.0))?;
            writeln!(out, "  error       {}", Coded(code))?;
            writeln!(out, "  parameter  {}", Valued { octets, value })
        }
        Parsed::InvokeReject { id, problem } => {
            reject_lines(out, Some(id.0), ProblemKind::Invoke, problem)
        }
        Parsed::ResultReject { id, problem } => {
            reject_lines(out, Some(id.0), ProblemKind::Result, problem)
        }
        Parsed::ErrorReject { id, problem } => {
            reject_lines(out, Some(id.0), ProblemKind::Error, problem)
        }
        Parsed::GeneralReject { id, problem } => {
            reject_lines(out, id, ProblemKind::General, problem)
        }
        // These are refused.
        Parsed::BadlyStructured { .. } | Parsed::Unrecognized | Parsed::Mistyped(_) => Ok(()),
    }
}
