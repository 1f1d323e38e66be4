// What a call answered: the front of its line.
use crate::call::Answer;
use crate::indicated::Indicated;
use apdu::Span;
use apdu::parse::body_value;
use protocol::{Indication, Problem, Refusal};
use std::fmt;

impl Answer<'_> {
    // The place of what was indicated: the argument, the result value or the error parameter.
    pub(crate) fn value(&self) -> Option<Span> {
        let Answer::Received(_, Ok(Some(said))) = *self else {
            return None;
        };
        match said {
            Indication::Invoke { argument, .. } => argument,
            Indication::Result { body, .. } => body_value(body),
            Indication::Error { parameter, .. } => parameter,
            _ => None,
        }
    }
}

impl fmt::Display for Answer<'_> {
    fn fmt<W: fmt::Write>(&self, f: &mut fmt::Formatter<W>) -> fmt::Result {
        match *self {
            Answer::Received(octets, Ok(Some(said))) => {
                write!(f, "{}", Indicated { octets, said })
            }
            Answer::Received(_, Ok(None)) => write!(f, "answered"),
            Answer::Sent(Ok(())) => write!(f, "sent"),
            Answer::Forgotten(Ok(())) => write!(f, "forgotten"),
            Answer::Received(_, Err(why)) | Answer::Sent(Err(why)) | Answer::Forgotten(Err(why)) =>
                { write!(f, "{}", Refused(why)) }
        }
    }
}

// A refusal's number, and the problem behind an 18.
#[derive(Clone, Copy)]
struct Refused(Refusal);

impl fmt::Display for Refused {
    fn fmt<W: fmt::Write>(&self, f: &mut fmt::Formatter<W>) -> fmt::Result {
        write!(f, "refused {}", self.0.number())?;
        if let Some(Problem { kind, number }) = self.0.problem() {
            write!(f, " {:02x} {number:02x}", u8::from(kind))?;
        }
        Ok(())
    }
}
