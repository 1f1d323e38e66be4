// Words, numbers and octets as text: each function puts its text into a line at a place and answers the place behind it.
// What does not fit is left out. The line and the place stay two parameters: `Said`, which every caller of these functions is told, speaks of both.
#![tactic(auto)]

pub mod fault;
pub mod hex;
pub mod input;
pub mod item;
pub mod number;
pub mod out;
pub mod problem;

ghost use Rattle.std.specs.Prelude.{◌≡◌, [], ◌∷◌, ◌<◌, take};
ghost use Rattle.io.specs.Digits.{hex_digit_ascii};
ghost use Rattle.text.specs.Out.{Adds};
ghost use Rattle.text.specs.Text.{Said, each, octet_shown, hex_octet, hex_octets, spaced_octets, eight_digits, decimal_digits, signed_digits};

use out::Out;
use std::io::Write;

pub fn put(line: &mut [u8], at: usize, b: u8) -> usize
    ensures { Said line.old at (b ∷ []) line.new result }
{
    if at < line.len() {
        line[at] = b;
        return at + 1;
    }
    at
}

pub fn words(line: &mut [u8], at: usize, s: &[u8]) -> usize
    ensures { Said line.old at s.now line.new result }
{
    let start = at.min(line.len());
    let n = s.len().min(line.len() - start);
    line[start..start + n].copy_from_slice(&s[..n]);
    at + n
}

// Digits are put by hand here and below: std shows numbers through a formatter, and `Said` is of a line that is lent.
fn digit(d: u8) -> u8
    requires { d < 16 }
    ensures { result ≡ hex_digit_ascii d }
{
    if d < 10 { b'0' + d } else { b'a' + (d - 10) }
}

// An octet as two hexadecimal digits.
pub fn octet(line: &mut [u8], at: usize, b: u8) -> usize
    ensures { Said line.old at (hex_octet b) line.new result }
{
    let k = put(line, at, digit(b / 16));
    put(line, k, digit(b % 16))
}

// The same, behind a space where octets are to stand apart.
fn octet_shown(line: &mut [u8], at: usize, b: u8, is_spaced: bool) -> usize
    ensures { Said line.old at (octet_shown is_spaced b) line.new result }
{
    if is_spaced {
        let a = put(line, at, b' ');
        return octet(line, a, b);
    }
    octet(line, at, b)
}

pub(crate) fn octets_shown(line: &mut [u8], at: usize, s: &[u8], is_spaced: bool) -> usize
    ensures { Said line.old at (each (octet_shown is_spaced) s.now) line.new result }
{
    let mut k = at;
    for &b in s {
        k = octet_shown(line, k, b, is_spaced);
    }
    k
}

// Octets as hexadecimal digits, without blanks.
pub fn octets(line: &mut [u8], at: usize, s: &[u8]) -> usize
    ensures { Said line.old at (hex_octets s.now) line.new result }
{
    octets_shown(line, at, s, false)
}

// Octets as hexadecimal digits, a space before each.
pub fn spaced_octets(line: &mut [u8], at: usize, s: &[u8]) -> usize
    ensures { Said line.old at (spaced_octets s.now) line.new result }
{
    octets_shown(line, at, s, true)
}

// A number as eight hexadecimal digits.
#[tactic(auto, using(crate::proofs::Laws::eight_digits_lem))]
pub fn eight_digits(line: &mut [u8], at: usize, x: u32) -> usize
    ensures { Said line.old at (eight_digits x) line.new result }
{
    octets(line, at, &x.to_be_bytes())
}

// A number in decimal.
// The digits stand in an array with room for any number, since there is no heap.
#[tactic(auto, using(crate::proofs::Laws::decimal_digits_lem))]
pub fn decimal(line: &mut [u8], at: usize, n: u64) -> usize
    ensures { Said line.old at (decimal_digits n) line.new result }
{
    let mut digits = [0u8; 20];
    let k = io::decimal(n, &mut digits);
    words(line, at, &digits[..k])
}

// The signed number with these two's complement bits, in decimal.
pub fn signed(line: &mut [u8], at: usize, bits: u32) -> usize
    ensures { Said line.old at (signed_digits bits) line.new result }
{
    if bits < 0x8000_0000 {
        return decimal(line, at, bits as u64);
    }
    let a = put(line, at, b'-');
    decimal(line, a, 0x1_0000_0000 - bits as u64)
}

// Puts a line up to a place out, and answers whether all that was put out so far is written or kept.
// The line and how far it is filled stay two parameters, as the functions above hand them out.
pub fn print(out: &mut Out<impl Write>, line: &[u8], end: usize) -> bool
    ensures added { Adds out.old (take end line.now) out.new }
    ensures whole { result ≡ out.new.whole }
{
    out::words(out, &line[..end.min(line.len())]);
    out.is_whole()
}
