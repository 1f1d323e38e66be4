// The lines of the tree: the place of an element, how many contents octets it has, its identifier and its contents.
use crate::identifier::Identifier;
use crate::octets::FirstOctets;
use ber::integer::integer_of;
use std::fmt;
use text::number::Signed;

#[derive(Clone, Copy)]
pub(crate) struct Line<'a> {
    pub(crate) at: usize,
    pub(crate) level: usize,
    pub(crate) found: Found<'a>,
}

// What stands at a place: an element with its contents, which are wrong where they break the rule of its type; one of an indefinite length, or its closing octets;
// or why the tree stops there, with the octets that are left.
#[derive(Clone, Copy)]
pub(crate) enum Found<'a> {
    Element {
        identifier: Identifier<'a>,
        contents: &'a [u8],
        is_wrong: bool,
    },
    Open(Identifier<'a>),
    Closing,
    Stop {
        why: &'static str,
        left: &'a [u8],
    },
}

impl fmt::Display for Line<'_> {
    fn fmt<W: fmt::Write>(&self, f: &mut fmt::Formatter<W>) -> fmt::Result {
        let at = self.at;
        let margin = Margin(self.level);
        match self.found {
            Found::Element {
                identifier,
                contents,
                is_wrong,
            } => {
                let count = contents.len();
                let said = Contents {
                    identifier,
                    contents,
                };
                write!(f, "{at:4} {count:4}:{margin}{identifier}{said}")?;
                if is_wrong {
                    write!(f, ", wrong contents")?;
                }
                Ok(())
            }
            Found::Open(identifier) => {
                let said = Contents {
                    identifier,
                    contents: &[],
                };
                write!(f, "{at:4} open:{margin}{identifier}{said}")
            }
            Found::Closing => write!(f, "{at:4}     :{margin} closing octets 00 00"),
            Found::Stop { why, left } => {
                write!(f, "{at:4}     : {margin}{why}{}", FirstOctets(left))
            }
        }
    }
}

// Two columns for each level.
#[derive(Clone, Copy)]
struct Margin(usize);

impl fmt::Display for Margin {
    fn fmt<W: fmt::Write>(&self, f: &mut fmt::Formatter<W>) -> fmt::Result {
        for _ in 0..self.0 {
            write!(f, "  ")?;
        }
        Ok(())
    }
}

// What stands behind an element's name: that it is constructed, or the contents.
#[derive(Clone, Copy)]
struct Contents<'a> {
    identifier: Identifier<'a>,
    contents: &'a [u8],
}

impl fmt::Display for Contents<'_> {
    fn fmt<W: fmt::Write>(&self, f: &mut fmt::Formatter<W>) -> fmt::Result {
        if self.identifier.is_sequence_or_set() {
            return Ok(());
        }
        if self.identifier.is_constructed() {
            return write!(f, " constructed");
        }
        if self.identifier.is_number() {
            if let Some(bits) = integer_of(self.contents) {
                return write!(f, " {}", Signed(bits));
            }
        }
        write!(f, "{}", FirstOctets(self.contents))
    }
}
