// Writes each operation table whose file is named in words, or its first fault, or whether one table extends another: docs/TABLES.md.
#![tactic(auto)]

mod extension;

use extension::compare;
use listing::files::{Program, is_argument, read, table_buffer};
use listing::{FaultWords, Listing, Reason};
use optable::{Fault, first_fault};
use std::fmt;
use std::fmt::Write as _;
use std::io::Write;
use std::rt::{Env, Files};
use text::input::argument_count;
use text::out::{Out, words};

const TABCHECK: Program = Program {
    name: "tabcheck",
    usage: "tabcheck FILE... or tabcheck --extends OLD NEW",
};

// Where the program writes.
#[derive(Drop)]
pub(crate) struct Streams<O: Write + Drop, E: Write + Drop> {
    pub(crate) out: Out<O>,
    pub(crate) err: Out<E>,
}

// A table's fault, where a longer file is no table.
#[derive(Clone, Copy)]
pub(crate) struct Faulty<'a> {
    pub(crate) table: &'a [u8],
    pub(crate) fault: Fault,
}

impl fmt::Display for Faulty<'_> {
    fn fmt<W: fmt::Write>(&self, f: &mut fmt::Formatter<W>) -> fmt::Result {
        if self.table.len() > 5144 {
            return write!(f, "longer than any table, which has at most 5144 octets");
        }
        let reason = Reason {
            table: self.table,
            fault: self.fault,
        };
        write!(f, "{}", FaultWords(reason))
    }
}

// What is said of a table behind the name of its file.
fn report(out: &mut Out<impl Write>, table: &[u8]) -> fmt::Result {
    match first_fault(table) {
        Ok(()) => write!(out, ": valid, {} octets\n{}", table.len(), Listing(table)),
        Err(fault) => writeln!(out, ": {}", Faulty { table, fault }),
    }
}

// The table whose file an argument names, read into the buffer. Its name and the buffer are arrays, since there is no heap.
fn check<O: Write + Drop, E: Write + Drop>(
    rt: &(impl Env + Files),
    streams: &mut Streams<O, E>,
    i: usize,
    buffer: &mut [u8],
) -> Option<()> {
    let mut name = [0u8; 4096];
    let name = TABCHECK.file_name(rt, &mut streams.err, i, &mut name)?;
    let table = read(rt, &mut streams.err, name, buffer)?;
    words(&mut streams.out, name);
    report(&mut streams.out, table).ok()
}

// What the arguments ask for. Of a file that is no table, the others are checked all the same.
fn answer<O: Write + Drop, E: Write + Drop>(rt: &(impl Env + Files), streams: &mut Streams<O, E>) {
    let count = argument_count(rt);
    if count < 2 {
        let _ = writeln!(
            streams.err,
            "tabcheck: name the files of the tables to check: {}",
            TABCHECK.usage
        );
        return;
    }
    if is_argument(rt, 1, b"--extends") {
        let _ = compare(rt, streams, count);
        return;
    }
    let mut table = table_buffer();
    for i in 1..count {
        let _ = check(rt, streams, i, &mut table);
    }
}

fn main(rt: HostRuntime) {
    let mut streams = Streams {
        out: Out::new(rt.stdout()),
        err: Out::new(rt.stderr()),
    };
    answer(&rt, &mut streams);
    streams.out.flush();
    streams.err.flush();
}
