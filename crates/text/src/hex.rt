// Octets read from hexadecimal text: two digits of either case for each, which stand together.
// Between octets, blanks and line ends are passed over, and from a # on everything up to the end of its line.
ghost use Rattle.std.specs.Prelude.{◌≡◌, ◌≤◌, Ok, Some, length};
ghost use Rattle.text.specs.Hex.{is_blank, digit_of, between, comment, answer, Read};
ghost use Rattle.text.specs.Steps.{Sound, Moved};
ghost use Rattle.std.specs.Fmt.{WritesOnOk};
ghost use Rattle.text.specs.Text.{each, octet_shown, hex_octets, spaced_octets};

use crate::octets_shown;
use std::fmt;

// What is wrong with a text: the place of a character that cannot stand there, an octet at its end with one digit only, more octets than fit.
#[derive(Clone, Copy, Debug, PartialEq, Eq)]
pub enum HexFault {
    NoDigit(usize),
    Half,
    Long,
}

// What stands before the next character: whole octets, a #, or the first digit of an octet.
#[derive(Clone, Copy)]
pub(crate) enum Phase {
    Between,
    Comment,
    First(u8),
}

#[derive(Clone, Copy)]
pub(crate) struct Reading {
    pub(crate) phase: Phase,
    pub(crate) count: usize,
}

// So many octets are shown at once, since each text that is written has a cost of its own.
const AT_ONCE: usize = 32;

// The digits of a few octets, put into a line.
fn digits<'a>(few: &[u8], is_spaced: bool, line: &'a mut [u8; 96]) -> &'a str
    requires { length few.now ≤ 32 }
    ensures { result.now ≡ each (octet_shown is_spaced) few.now }
{
    let end = octets_shown(line, 0, few, is_spaced);
    std::str::from_utf8(&line[..end]).unwrap_or("")
}

fn show<W: fmt::Write>(octets: &[u8], is_spaced: bool, f: &mut fmt::Formatter<W>) -> fmt::Result
    ensures { WritesOnOk W.write_str_gives f.old result (each (octet_shown is_spaced) octets.now) f.new }
{
    for few in octets.chunks(AT_ONCE) {
        f.write_str(digits(few, is_spaced, &mut [0; 96]))?;
    }
    Ok(())
}

// Octets in hexadecimal, two digits in lower case for each, without blanks.
#[derive(Clone, Copy)]
pub struct Octets<'a>(pub &'a [u8]);

impl fmt::Display for Octets<'_> {
    ghost output = { λ octets. Some (hex_octets octets.0.now) };

    fn fmt<W: fmt::Write>(&self, f: &mut fmt::Formatter<W>) -> fmt::Result {
        show(self.0, false, f)
    }
}

// The same, a space before each octet.
#[derive(Clone, Copy)]
pub struct SpacedOctets<'a>(pub &'a [u8]);

impl fmt::Display for SpacedOctets<'_> {
    ghost output = { λ octets. Some (spaced_octets octets.0.now) };

    fn fmt<W: fmt::Write>(&self, f: &mut fmt::Formatter<W>) -> fmt::Result {
        show(self.0, true, f)
    }
}

pub(crate) fn is_blank(c: u8) -> bool
    ensures { result ≡ is_blank c }
{
    matches!(c, b' ' | b'\t' | b'\n' | b'\r')
}

// By hand: `digit_of` is of octets, and `to_digit` of std of characters.
#[tactic(auto, unfolding(crate::specs::Hex::digit_of))]
fn digit_of(c: u8) -> Option<u8>
    ensures { result ≡ digit_of c }
{
    match c {
        b'0'..=b'9' => Some(c - b'0'),
        b'A'..=b'F' => Some(c - b'A' + 10),
        b'a'..=b'f' => Some(c - b'a' + 10),
        _ => None,
    }
}

#[tactic(auto, unfolding(crate::specs::Hex::between))]
fn after_octets(place: usize, c: u8) -> Result<Phase, HexFault>
    ensures { result ≡ between place c }
{
    if is_blank(c) {
        return Ok(Phase::Between);
    }
    if c == b'#' {
        return Ok(Phase::Comment);
    }
    digit_of(c)
        .map(Phase::First)
        .ok_or(HexFault::NoDigit(place))
}

#[tactic(auto, unfolding(crate::specs::Hex::comment))]
fn in_comment(c: u8) -> Phase
    ensures { result ≡ comment c }
{
    if c == b'\n' {
        Phase::Between
    } else {
        Phase::Comment
    }
}

// The octet whose first digit is d, if the character is its second and there is room.
// The output and the count stay apart: `Sound` and `Moved` are of the output and of a Reading.
fn after_first(
    out: &mut [u8],
    count: usize,
    d: u8,
    place: usize,
    c: u8,
) -> Result<Reading, HexFault>
    requires { Sound out.old (record { phase = Phase.First d; count = count }) }
    ensures { Moved out.old (record { phase = Phase.First d; count = count }) place c out.new result }
{
    let Some(e) = digit_of(c) else {
        return Err(HexFault::NoDigit(place));
    };
    if count >= out.len() {
        return Err(HexFault::Long);
    }
    out[count] = d * 16 + e;
    Ok(Reading {
        phase: Phase::Between,
        count: count + 1,
    })
}

fn next(out: &mut [u8], r: Reading, place: usize, c: u8) -> Result<Reading, HexFault>
    requires { Sound out.old r }
    ensures { Moved out.old r place c out.new result }
{
    let count = r.count;
    let phase = match r.phase {
        Phase::Between => after_octets(place, c)?,
        Phase::Comment => in_comment(c),
        Phase::First(d) => return after_first(out, count, d, place, c),
    };
    Ok(Reading { phase, count })
}

#[tactic(auto, unfolding(crate::specs::Hex::answer))]
fn at_end(r: Reading) -> Result<usize, HexFault>
    ensures { result ≡ answer (Ok r.phase) r.count }
{
    match r.phase {
        Phase::Between | Phase::Comment => Ok(r.count),
        Phase::First(_) => Err(HexFault::Half),
    }
}

// Reads the octets that a text says to the front of out, and answers how many they are.
pub fn read_hex(text: &[u8], out: &mut [u8]) -> Result<usize, HexFault>
    ensures { Read text.now out.old out.new result }
{
    let mut r = Reading {
        phase: Phase::Between,
        count: 0,
    };
    for (i, &c) in text.iter().enumerate() {
        r = next(out, r, i, c)?;
    }
    at_end(r)
}
