// The problems of a Reject in words, by the kind that is their identifier, 80 to 83.
ghost use Rattle.text.specs.Text.{Worded};

use crate::{decimal, words};

// The problems of a kind, in the order of their numbers. Kinds are octets here: `problem` takes any, and ProblemKind is of apdu, a crate above.
fn problems(kind: u8) -> &'static [&'static [u8]] {
    match kind {
        0x80 => &[
            b"unrecognized APDU",
            b"mistyped APDU",
            b"badly structured APDU",
        ],
        0x81 => &[
            b"duplicate invocation",
            b"unrecognized operation",
            b"mistyped argument",
            b"resource limitation",
            b"release in progress",
            b"unrecognized linked id",
            b"linked response unexpected",
            b"unexpected linked operation",
        ],
        0x82 => &[
            b"unrecognized invocation",
            b"result response unexpected",
            b"mistyped result",
        ],
        0x83 => &[
            b"unrecognized invocation",
            b"error response unexpected",
            b"unrecognized error",
            b"unexpected error",
            b"mistyped parameter",
        ],
        _ => &[],
    }
}

// A kind by its octet too.
fn kind_name(kind: u8) -> &'static [u8] {
    match kind % 128 {
        0 => b"general",
        1 => b"invoke",
        2 => b"result",
        3 => b"error",
        _ => b"",
    }
}

// A problem's kind, number and name, as in 'result problem 2, mistyped result'.
// Two octets, since it takes any; no Display, since `Worded` is of a line that is lent.
pub fn problem(line: &mut [u8], at: usize, kind: u8, number: u8) -> usize
    ensures { Worded line.old at line.new result }
{
    let name = problems(kind).get(number as usize);
    let a = words(line, at, kind_name(kind));
    let b = words(line, a, b" problem ");
    let c = decimal(line, b, number as u64);
    let d = words(line, c, b", ");
    words(line, d, name.copied().unwrap_or(b""))
}
