// The elements as a tree, a line each, as far as their headers can be read.
use crate::identifier::Identifier;
use crate::line::{Found, Line};
use arrayvec::ArrayVec;
use base::octets::between;
use ber::element::well_formed;
use ber::header::{Header, header_of};
use records::State;
use std::fmt;
use std::fmt::Write as _;
use std::io::Write;
use text::out::Out;

// An element that the walk is in. One of an indefinite length goes on until it is closed, and ends where that around it does, at the latest.
#[derive(Clone, Copy, Default)]
struct Around {
    end: usize,
    is_open: bool,
}

// A walk through the elements: the place of the next, and those that it is in. It is stopped behind a last line: an Option of the rest would be
// taken apart in each method.
#[derive(Drop)]
struct Walk<'a> {
    octets: &'a [u8],
    at: usize,
    around: ArrayVec<Around, { State::LEVELS }>,
    is_stopped: bool,
}

// Whether the contents of a primitive element break the rule of its type.
fn is_contents_wrong(identifier: Identifier, element: &[u8]) -> bool {
    !identifier.is_constructed() && !well_formed(element, 1)
}

impl<'a> Walk<'a> {
    fn new(octets: &'a [u8]) -> Self {
        Walk {
            octets,
            at: 0,
            around: ArrayVec::new(),
            is_stopped: false,
        }
    }

    // Leaves the elements that do not go on at the place.
    fn leave(&mut self) {
        let at = self.at;
        let around = self.around.as_slice();
        let innermost = around
            .iter()
            .rposition(|around| around.is_open || at < around.end);
        self.around.truncate(innermost.map_or(0, |i| i + 1));
    }

    fn line(&self, found: Found<'a>) -> Line<'a> {
        Line {
            at: self.at,
            level: self.around.len(),
            found,
        }
    }

    // The last line, where no element stands.
    fn stop(&mut self, why: &'static str, left: &'a [u8]) -> Line<'a> {
        self.is_stopped = true;
        self.line(Found::Stop { why, left })
    }

    // Goes on behind so many octets, inside an element that ends there.
    fn enter(&mut self, octets: usize, end: usize, is_open: bool) {
        self.at = self.at.saturating_add(octets);
        // There is room, since a header is read only where the levels are not full.
        let _ = self.around.try_push(Around { end, is_open });
    }

    // The next element, of those left up to an end.
    fn element(&mut self, left: &'a [u8], end: usize) -> Line<'a> {
        if self.around.len() >= State::LEVELS {
            return self.stop("level 17, of at most 16:", left);
        }
        match header_of(left) {
            Some(
                Header::At {
                    start,
                    end: stop,
                    ..
                },
            ) => {
                let element = between(left, 0, stop);
                let identifier = Identifier::of(element);
                let line = self.line(Found::Element {
                    identifier,
                    contents: between(element, start, stop),
                    is_wrong: is_contents_wrong(identifier, element),
                });
                let behind = self.at.saturating_add(stop);
                if identifier.is_constructed() {
                    self.enter(start, behind, false);
                } else {
                    self.at = behind;
                }
                line
            }
            Some(Header::Open { start, .. }) => {
                let line = self.line(Found::Open(Identifier::of(left)));
                self.enter(start, end, true);
                line
            }
            None => self.stop(
                "no element: the identifier or the length is wrong, or octets are missing:",
                left,
            ),
        }
    }

    // The next element inside one of an indefinite length that ends there at the latest, or its closing octets.
    fn open_step(&mut self, left: &'a [u8], end: usize) -> Line<'a> {
        if !left.is_empty() && !left.starts_with(&[0, 0]) {
            return self.element(left, end);
        }
        let _ = self.around.pop();
        if left.is_empty() {
            return self.stop("the closing octets 00 00 are missing", left);
        }
        let line = self.line(Found::Closing);
        self.at = self.at.saturating_add(2);
        line
    }
}

impl<'a> Iterator for Walk<'a> {
    type Item = Line<'a>;

    fn next(&mut self) -> Option<Line<'a>> {
        self.leave();
        let octets = self.octets;
        let at = self.at;
        let innermost = self.around.as_slice().last().copied();
        let end = innermost.map_or(octets.len(), |around| around.end);
        let left = between(octets, at, end);
        if self.is_stopped {
            None
        } else if innermost.is_some_and(|around| around.is_open) {
            Some(self.open_step(left, end))
        } else if left.is_empty() {
            None
        } else if innermost.is_none() && at > 0 {
            Some(self.stop("behind the APDU:", left))
        } else {
            Some(self.element(left, end))
        }
    }
}

// Prints the tree: each line but the last passes an octet or more.
pub(crate) fn tree(out: &mut Out<impl Write>, octets: &[u8]) -> fmt::Result {
    for line in Walk::new(octets).take(octets.len()) {
        writeln!(out, "{line}")?;
    }
    Ok(())
}
