// Plays a capture with a table, each in the file that is named, and writes one line (docs/RULES.md, 'A day's capture, replayed').
#![tactic(auto)]

use listing::files;
use player::{Refusal, Report, replay};
use std::env::FillError;
use std::fmt;
use std::fmt::Write as _;
use std::io::Write;
use std::rt::{Env, Files};
use text::input::argument_count;
use text::out::Out;

// What playing gives, as one line says it.
#[derive(Clone, Copy)]
struct Line(Result<Report, Refusal>);

impl fmt::Display for Line {
    fn fmt<W: fmt::Write>(&self, f: &mut fmt::Formatter<W>) -> fmt::Result {
        match self.0 {
            Ok(Report::Agree(entries)) => write!(f, "entries {entries} agree"),
            Ok(Report::Differs(place)) => write!(f, "entry {place} differs"),
            Err(why) => write!(f, "refused {}", why.number()),
        }
    }
}

// The octets of the file that an argument names, put at the front of a buffer; a file that cannot be read counts as empty.
// The name stands in an array, since there is no heap.
fn file_of<'a>(
    rt: &(impl Env + Files),
    err: &mut Out<impl Write>,
    argument: usize,
    buffer: &'a mut [u8],
) -> &'a [u8] {
    let mut name = [0u8; 4096];
    match rt.arg(argument, &mut name) {
        Ok(n) => files::read(rt, err, &name[..n], buffer).unwrap_or(&[]),
        Err(FillError::NotPresent) => &[],
        Err(FillError::TooLong) => {
            let long = "a file name is too long: name the file by a shorter path";
            let _ = writeln!(err, "replay: {long}");
            &[]
        }
    }
}

// There is no heap.
// Each buffer is longer than the longest table or capture, so that a longer file is seen to be one. What is put out is always taken, so that there is no error to
// pass on.
fn played(rt: &(impl Env + Files), out: &mut Out<impl Write>, err: &mut Out<impl Write>) {
    if argument_count(rt) < 3 {
        let usage = "name the files of the table and of the capture: replay TABLE CAPTURE";
        let _ = writeln!(err, "replay: {usage}");
    }
    let mut tables = [0u8; 65536];
    let mut captures = [0u8; 65536];
    let table = file_of(rt, err, 1, &mut tables);
    let capture = file_of(rt, err, 2, &mut captures);
    let _ = writeln!(out, "{}", Line(replay(table, capture)));
}

fn main(rt: HostRuntime) {
    let mut out = Out::new(rt.stdout());
    let mut err = Out::new(rt.stderr());
    played(&rt, &mut out, &mut err);
    out.flush();
    err.flush();
}
