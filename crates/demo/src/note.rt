// What the kiosk takes an answer for.
use crate::words::Reading;
use apdu::Span;
use base::octets::octet;
use ber::header::{Header, header_of};
use ber::integer::integer_of;
use codes::Code;
use protocol::{Indication, Refusal};
use std::fmt;

#[derive(Clone, Copy)]
pub(crate) enum Note {
    // Hundredths of a mg/l.
    Reading(u32),
    // An error 1: below detection.
    Below,
    // A result without a value.
    Empty,
    NotUnderstood,
    // The controller does not understand the invocation.
    Rejected,
    // What the controller tells of an invocation or of its answer.
    Told(&'static str),
    // The library answered an invocation itself.
    Answered,
    Refused,
}

// What the number in the value of operation -2's result says, and in that of -3's.
const PROBED: [&str; 3] = [
    "the invocation is not answered yet",
    "the invocation is answered, and its answer follows",
    "the controller has no answer to it",
];

const ACKNOWLEDGED: [&str; 2] = [
    "the controller keeps the answer no longer",
    "the controller kept no such answer",
];

impl Note {
    // What received octets are, and what the library says of them.
    pub(crate) fn of(octets: &[u8], reception: Result<Option<Indication>, Refusal>) -> Note {
        match reception {
            Err(_) => Note::Refused,
            Ok(None) => Note::Answered,
            Ok(
                Some(
                    Indication::Result {
                        body,
                        operation,
                        ..
                    },
                ),
            ) => match body {
                Some(body) => Note::of_result(operation, body.value.of(octets)),
                None => Note::Empty,
            },
            Ok(
                Some(
                    Indication::Error {
                        code: Code::Local(1),
                        ..
                    },
                ),
            ) => Note::Below,
            Ok(Some(Indication::InvokeRejected { .. })) => Note::Rejected,
            Ok(Some(_)) => Note::NotUnderstood,
        }
    }

    // Operations -2 and -3 say what became of an invocation or of its answer; the result of another operation is a reading.
    fn of_result(operation: Code, element: &[u8]) -> Note {
        match operation {
            Code::Local(0xFFFF_FFFE) => Note::told(&PROBED, element),
            Code::Local(0xFFFF_FFFD) => Note::told(&ACKNOWLEDGED, element),
            _ => Note::of_value(element).unwrap_or(Note::NotUnderstood),
        }
    }

    // Nothing is stored: the number in the value picks the words.
    fn told(words: &[&'static str], element: &[u8]) -> Note {
        let said = match header_of(element) {
            Some(Header::At { start, .. }) => words.get(usize::from(octet(element, start))),
            _ => None,
        };
        Note::Told(said.copied().unwrap_or(""))
    }

    // A value is a reading if it is a number that is not negative.
    fn of_value(element: &[u8]) -> Option<Note> {
        let Some(Header::At { start, end, .. }) = header_of(element) else {
            return None;
        };
        let reading = integer_of(Span { at: start, end }.of(element))?;
        (reading < 0x8000_0000).then_some(Note::Reading(reading))
    }
}

impl fmt::Display for Note {
    fn fmt<W: fmt::Write>(&self, f: &mut fmt::Formatter<W>) -> fmt::Result {
        match *self {
            Note::Reading(reading) => write!(f, "a reading,{} mg/l", Reading(reading)),
            Note::Below => write!(f, "no reading: below detection, and never a zero"),
            Note::Empty => write!(
                f,
                "no reading: a result without a value is neither a reading nor an error"
            ),
            Note::NotUnderstood => write!(f, "no reading: the answer is not understood"),
            Note::Rejected => write!(f, "no reading: the invocation is not understood"),
            Note::Told(words) => write!(f, "nothing: {words}"),
            Note::Answered => write!(f, "nothing, since the library answered"),
            Note::Refused => write!(f, "nothing, since the answer is refused"),
        }
    }
}
