// What is wrong with hexadecimal text, in words. The line, the place, what lines are called and the text stay parameters: `Worded` is of the first two, and a struct of
// the others would be made for one call.
ghost use Rattle.text.specs.Text.{Worded};

use crate::hex::{HexFault, is_blank};
use crate::{decimal, octet, put, words};

// The line that the end of a text stands in, counted from 1.
fn last_line(text: &[u8]) -> u64 {
    let ended = text.iter().filter(|&&c| c == b'\n').count();
    (ended as u64).saturating_add(1)
}

// The number of the line, behind what lines are called.
fn line_name(line: &mut [u8], at: usize, unit: &[u8], text: &[u8]) -> usize
    ensures { Worded line.old at line.new result }
{
    let a = words(line, at, unit);
    let b = put(line, a, b' ');
    let c = decimal(line, b, last_line(text));
    words(line, c, b": ")
}

// A character as it is, or as an octet where it does not show.
fn character(line: &mut [u8], at: usize, c: u8) -> usize
    ensures { Worded line.old at line.new result }
{
    if c.is_ascii_graphic() {
        return words(line, at, &[b'\'', c, b'\'']);
    }
    let a = words(line, at, b"the octet ");
    octet(line, a, c)
}

// The text up to a first digit that has no second one.
#[tactic(auto, using(crate::proofs::Laws::worded_said, crate::proofs::Laws::worded_worded))]
fn one_digit(line: &mut [u8], at: usize, unit: &[u8], text: &[u8]) -> usize
    ensures { Worded line.old at line.new result }
{
    let a = line_name(line, at, unit, text);
    words(line, a, b"an octet has one digit only")
}

// The text up to a character that cannot stand behind it: a blank or a # leaves an octet with one digit.
#[tactic(auto, using(crate::proofs::Laws::worded_said, crate::proofs::Laws::worded_worded))]
fn no_digit(line: &mut [u8], at: usize, unit: &[u8], text: &[u8], c: u8) -> usize
    ensures { Worded line.old at line.new result }
{
    if is_blank(c) || c == b'#' {
        return one_digit(line, at, unit, text);
    }
    let a = line_name(line, at, unit, text);
    let b = character(line, a, c);
    words(line, b, b" is not a hexadecimal digit")
}

// What `read_hex` found wrong with a text, with the number of its line; `unit` is what lines are called, as `line` or `argument`. No Display, since `Worded`
// is of a line that is lent.
pub fn fault(
    line: &mut [u8],
    at: usize,
    unit: &[u8],
    text: &[u8],
    found: Result<usize, HexFault>,
) -> usize
    ensures { Worded line.old at line.new result }
{
    match found {
        Ok(_) => words(line, at, b""),
        Err(HexFault::Long) => words(line, at, b"there are too many octets"),
        Err(HexFault::NoDigit(place)) if place < text.len() => {
            no_digit(line, at, unit, &text[..place], text[place])
        }
        Err(_) => one_digit(line, at, unit, text),
    }
}
