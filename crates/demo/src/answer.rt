// What an end reads: the library's indication or refusal, in words.
use crate::words::Coded;
use apdu::Span;
use apdu::parse::body_value;
use apdu::problem::ProblemKind;
use base::octets::between;
use codes::Code;
use protocol::{Indication, Problem, Refusal};
use std::fmt;
use std::fmt::Write as _;
use std::io::Write;
use text::hex::SpacedOctets;
use text::out::{Out, problem_name};

// An invocation of an operation, and what stands in the octets for it: a value that has a name, or none.
#[derive(Clone, Copy)]
struct Invocation<'a> {
    id: u32,
    operation: Code,
    name: &'static str,
    octets: &'a [u8],
    value: Option<Span>,
}

impl<'a> Invocation<'a> {
    fn of(
        octets: &'a [u8],
        id: u32,
        operation: Code,
        name: &'static str,
        value: Option<Span>,
    ) -> Self {
        Invocation {
            id,
            operation,
            name,
            octets,
            value,
        }
    }
}

impl fmt::Display for Invocation<'_> {
    fn fmt<W: fmt::Write>(&self, f: &mut fmt::Formatter<W>) -> fmt::Result {
        let Invocation {
            id,
            operation,
            name,
            octets,
            value,
        } = *self;
        write!(f, "invocation {id} of operation {}, ", Coded(operation))?;
        match value {
            None => write!(f, "no {name}"),
            Some(span) => write!(f, "{name}{}", SpacedOctets(span.of(octets))),
        }
    }
}

// The fields of a Reject. The number of a problem stays one here and below, as the library hands it on.
fn reject_words(
    to: &mut Out<impl Write>,
    id: Option<u32>,
    kind: ProblemKind,
    number: u8,
) -> fmt::Result {
    match id {
        None => write!(to, ": no invocation, ")?,
        Some(id) => write!(to, ": invocation {id}, ")?,
    }
    problem_name(to, kind.into(), number);
    Ok(())
}

fn rejected_words(to: &mut Out<impl Write>, id: u32, kind: ProblemKind, number: u8) -> fmt::Result {
    write!(to, "reject")?;
    reject_words(to, Some(id), kind, number)
}

fn indication_words(to: &mut Out<impl Write>, octets: &[u8], said: Indication) -> fmt::Result {
    match said {
        Indication::Invoke {
            id,
            code,
            argument,
            ..
        } => {
            let told = Invocation::of(octets, id.0, code, "argument", argument);
            write!(to, "invoke: {told}")
        }
        Indication::Result {
            id,
            body,
            operation,
        } => {
            let told = Invocation::of(octets, id.0, operation, "value", body_value(body));
            write!(to, "result: {told}")
        }
        Indication::Error {
            id,
            code,
            parameter,
            operation,
        } => {
            let told = Invocation::of(octets, id.0, operation, "parameter", parameter);
            write!(to, "error {}: {told}", Coded(code))
        }
        Indication::InvokeRejected { id, problem } => {
            rejected_words(to, id.0, ProblemKind::Invoke, problem)
        }
        Indication::ResultRejected { id, problem } => {
            rejected_words(to, id.0, ProblemKind::Result, problem)
        }
        Indication::ErrorRejected { id, problem } => {
            rejected_words(to, id.0, ProblemKind::Error, problem)
        }
        Indication::GeneralReject { .. } => write!(to, "another reject"),
    }
}

// A refusal's number, the fields of the Reject behind an 18, and why an id that was forgotten is not asked with. No Display, since text's
// `problem_name` puts a problem out.
pub(crate) fn refusal_words(to: &mut Out<impl Write>, why: Refusal) -> fmt::Result {
    write!(to, "refused with {}", why.number())?;
    match why {
        Refusal::Rejected { id, kind, problem } => reject_words(to, id, kind, problem),
        Refusal::IdResting => write!(to, ": the id rests"),
        _ => Ok(()),
    }
}

// What the library says of received octets; where they are badly structured, where the fault is and what stands there.
pub(crate) fn reception_words(
    to: &mut Out<impl Write>,
    octets: &[u8],
    reception: Result<Option<Indication>, Refusal>,
    place: usize,
) -> fmt::Result {
    match reception {
        Ok(Some(said)) => indication_words(to, octets, said),
        Ok(None) => write!(to, "an invocation that the library answers itself"),
        Err(why) => {
            refusal_words(to, why)?;
            let structure = Problem {
                kind: ProblemKind::General,
                number: 2,
            };
            if why.problem() != Some(structure) {
                return Ok(());
            }
            let left = between(octets, place, octets.len());
            write!(
                to,
                "\n   {:<18}octet {place}:{}",
                "the fault is at",
                SpacedOctets(left)
            )
        }
    }
}
