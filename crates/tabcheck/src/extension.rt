// Whether one table extends another, or the first thing against it.
use crate::{Faulty, Streams};
use listing::Lacking;
use listing::files::{Program, read, table_buffer};
use optable::{Shortfall, first_fault, first_missing};
use std::fmt;
use std::fmt::Write as _;
use std::io::Write;
use std::rt::{Env, Files};
use text::out::{Out, words};

const EXTENDS: Program = Program {
    name: "tabcheck",
    usage: "tabcheck --extends OLD NEW",
};

// A table, and the name of its file.
#[derive(Clone, Copy)]
struct Named<'a> {
    name: &'a [u8],
    table: &'a [u8],
}

fn report_invalid(out: &mut Out<impl Write>, of: Named<'_>) -> fmt::Result {
    let table = of.table;
    words(out, of.name);
    match first_fault(table) {
        Ok(()) => Ok(()),
        Err(fault) => writeln!(out, ": {}", Faulty { table, fault }),
    }
}

fn report(out: &mut Out<impl Write>, new: Named<'_>, old: Named<'_>) -> fmt::Result {
    match first_missing(new.table, old.table) {
        Ok(()) => {
            words(out, new.name);
            write!(out, ": extends ")?;
            words(out, old.name);
            writeln!(out, "")
        }
        Err(Shortfall::OldInvalid) => report_invalid(out, old),
        Err(Shortfall::NewInvalid) => report_invalid(out, new),
        Err(Shortfall::Missing { part, index }) => {
            let lacking = Lacking {
                new: new.table,
                old: old.table,
                part,
                index,
            };
            words(out, new.name);
            write!(out, ": does not extend ")?;
            words(out, old.name);
            writeln!(out, ": {lacking}")
        }
    }
}

// The tables that the arguments behind --extends name, the old one first. Names and tables stand in arrays, since there is no heap.
pub(crate) fn compare<O: Write + Drop, E: Write + Drop>(
    rt: &(impl Env + Files),
    streams: &mut Streams<O, E>,
    count: usize,
) -> Option<()> {
    let err = &mut streams.err;
    if count != 4 {
        let usage = EXTENDS.usage;
        return writeln!(err, "tabcheck: --extends takes two files: {usage}").ok();
    }
    let mut old_name = [0u8; 4096];
    let mut new_name = [0u8; 4096];
    let old_name = EXTENDS.file_name(rt, err, 2, &mut old_name)?;
    let new_name = EXTENDS.file_name(rt, err, 3, &mut new_name)?;
    let mut old = table_buffer();
    let mut new = table_buffer();
    let old = Named {
        name: old_name,
        table: read(rt, err, old_name, &mut old)?,
    };
    let new = Named {
        name: new_name,
        table: read(rt, err, new_name, &mut new)?,
    };
    report(&mut streams.out, new, old).ok()
}
