// Octets in hexadecimal, from the arguments or standard input, in words: the tree of their elements, then what the APDU says or why it is refused.
#![tactic(auto)]

mod identifier;
mod input;
mod line;
mod octets;
mod refusal;
mod said;
mod tree;
mod verdict;

use arrayvec::ArrayVec;
use input::{Complaint, ROOM, read_text};
use std::fmt;
use std::io::{Read, Write};
use std::rt::Env;
use text::hex::read_hex;
use text::out::Out;
use tree::tree;
use verdict::verdict;

fn explain(out: &mut Out<impl Write>, octets: &[u8]) -> fmt::Result {
    tree(out, octets)?;
    verdict(out, octets)
}

// A complaint shows the text that it is about, which stays in the buffers lent. These and the octets are arrays, since there is no heap.
fn run<'a>(
    rt: &impl Env,
    input: &mut impl Read,
    out: &mut Out<impl Write>,
    text: &'a mut ArrayVec<u8, ROOM>,
    buffer: &'a mut [u8],
) -> Result<(), Complaint<'a>> {
    let text = read_text(rt, input, text, buffer)?;
    let mut octets = [0u8; 32768];
    let count = read_hex(text, &mut octets).map_err(|found| Complaint::of(text, found))?;
    // What is put out is always taken, so that there is no error to pass on.
    let _ = explain(out, octets.get(..count).unwrap_or(&[]));
    Ok(())
}

fn main(rt: HostRuntime) {
    let mut out = Out::new(rt.stdout());
    let mut err = Out::new(rt.stderr());
    let mut text = ArrayVec::new();
    let mut buffer = [0u8; ROOM];
    if let Err(complaint) = run(&rt, &mut rt.stdin(), &mut out, &mut text, &mut buffer) {
        complaint.tell(&rt, &mut err);
    }
    out.flush();
    err.flush();
}
