// The line of a call, as docs/DRIVE.md has it: the answer, and behind it the records then, the lent output, the place of a fault, the ids that rest, the kept
// answers and, where asked, the value's place.
use crate::end::{End, Made};
use crate::kept::KeptLine;
use crate::resting::RestingLine;
use crate::shown::{OctetsOrDash, OrNone};
use crate::side::SideLine;
use apdu::Span;
use arrayvec::ArrayString;
use std::fmt;

// What lent output is filled with before a call, so that a spoiled octet shows.
pub(crate) const SPOILABLE: u8 = 0xA5;

// A line before it is written. It has more octets than a line: those of a value and of what is written, in hexadecimal, and those of the state.
pub(crate) type WholeLine = ArrayString<300000>;

#[derive(Clone, Copy)]
pub(crate) struct Line<'a> {
    pub(crate) made: Made<'a>,
    pub(crate) end: &'a End,
    pub(crate) lent: &'a [u8],
    pub(crate) places: bool,
}

impl fmt::Display for Line<'_> {
    fn fmt<W: fmt::Write>(&self, f: &mut fmt::Formatter<W>) -> fmt::Result {
        let Line {
            made,
            end,
            lent,
            places,
        } = *self;
        let state = &end.state;
        write!(
            f,
            "{} own {} peer {} out {} place {} rest {} kept {}",
            made.answer,
            SideLine(&state.own),
            SideLine(&state.peer),
            Output {
                lent,
                written: made.written
            },
            made.place,
            RestingLine(&state.resting),
            KeptLine {
                kept: &state.kept,
                store: &end.store
            }
        )?;
        if places {
            write!(f, " value {}", OrNone(made.answer.value().map(Place)))?;
        }
        Ok(())
    }
}

// The octets written, and whether one behind them is no longer what it was filled with.
#[derive(Clone, Copy)]
struct Output<'a> {
    lent: &'a [u8],
    written: usize,
}

impl fmt::Display for Output<'_> {
    fn fmt<W: fmt::Write>(&self, f: &mut fmt::Formatter<W>) -> fmt::Result {
        let Some((written, behind)) = self.lent.split_at_checked(self.written) else {
            return Ok(());
        };
        write!(f, "{}", OctetsOrDash(written))?;
        if behind.iter().any(|&octet| octet != SPOILABLE) {
            write!(f, " spoiled")?;
        }
        Ok(())
    }
}

// Where a value stands in the received octets.
#[derive(Clone, Copy)]
struct Place(Span);

impl fmt::Display for Place {
    fn fmt<W: fmt::Write>(&self, f: &mut fmt::Formatter<W>) -> fmt::Result {
        write!(f, "{} {}", self.0.at, self.0.end)
    }
}
