// The text that is given as arguments or on standard input, and complaints about it on standard error.
use arrayvec::ArrayVec;
use std::fmt::Write as _;
use std::io::{Read, Write};
use std::rt::Env;
use text::fault::fault;
use text::hex::HexFault;
use text::input::{argument_count, read_full};
use text::out::{Out, words};
use text::print;

// The octets of a buffer that text does not fill.
pub(crate) const ROOM: usize = 262_144;

// What is wrong with the text.
#[derive(Clone, Copy)]
pub(crate) enum Complaint<'a> {
    TooLong,
    Wrong { text: &'a [u8], found: HexFault },
}

impl<'a> Complaint<'a> {
    pub(crate) fn of(text: &'a [u8], found: HexFault) -> Self {
        match found {
            HexFault::Long => Complaint::TooLong,
            _ => Complaint::Wrong { text, found },
        }
    }

    // What is told is always taken, so that there is no error to pass on. The line stands in an array, since there is no heap.
    pub(crate) fn tell(&self, rt: &impl Env, err: &mut Out<impl Write>) {
        words(err, b"explain: ");
        let _ = match *self {
            Complaint::TooLong => writeln!(
                err,
                "the input is too long: give at most 32,768 octets; an APDU has at most 4,096"
            ),
            Complaint::Wrong { text, found } => {
                let unit: &[u8] = if has_arguments(rt) {
                    b"argument"
                } else {
                    b"line"
                };
                let mut line = [0u8; 128];
                let end = fault(&mut line, 0, unit, text, Err(found));
                print(err, &line, end);
                writeln!(
                    err,
                    "; give two digits for each octet, and comments behind #"
                )
            }
        };
    }
}

fn has_arguments(rt: &impl Env) -> bool {
    argument_count(rt) > 1
}

// The arguments, each with a line end, so that its number is that of its line. They are asked for by number, since std's iterator over them asks for memory.
fn arguments(
    rt: &impl Env,
    count: usize,
    text: &mut ArrayVec<u8, ROOM>,
    argument: &mut [u8],
) -> Result<(), Complaint<'static>> {
    for i in 1..count {
        let n = rt.arg(i, argument).map_err(|_| Complaint::TooLong)?;
        text.try_extend_from_slice(&argument[..n])
            .map_err(|_| Complaint::TooLong)?;
        text.try_push(b'\n').map_err(|_| Complaint::TooLong)?;
    }
    Ok(())
}

// Text that fills its buffer may be longer.
pub(crate) fn read_text<'a>(
    rt: &impl Env,
    input: &mut impl Read,
    text: &'a mut ArrayVec<u8, ROOM>,
    buffer: &'a mut [u8],
) -> Result<&'a [u8], Complaint<'a>> {
    let count = argument_count(rt);
    let given = if count > 1 {
        arguments(rt, count, text, buffer)?;
        text.as_slice()
    } else {
        let n = read_full(input, buffer);
        &buffer[..n]
    };
    if given.len() < ROOM {
        Ok(given)
    } else {
        Err(Complaint::TooLong)
    }
}
