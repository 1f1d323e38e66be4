// A water kiosk asks a probe controller for chlorine readings, over a channel that loses, repeats and delays answers.
#![tactic(auto)]

mod answer;
mod channel;
mod day;
mod fetching;
mod note;
mod site;
mod table;
mod words;

use fetching::fetched;
use note::Note;
use site::Site;
use std::fmt;
use std::io::Write;
use text::out::Out;

// The three answers of a probe.
fn three_answers(site: &mut Site<impl Write>) -> fmt::Result {
    site.title("1. A reading: a result with a value")?;
    site.ask(1)?;
    site.result(1, b"\x02\x01\x0c")?;
    site.kiosk_reads()?;
    site.title("2. A reading below detection: an error, not a result")?;
    site.ask(2)?;
    site.error(2, 1)?;
    site.kiosk_reads()?;
    site.title("3. The probe is being cleaned: a result without a value")?;
    site.ask(3)?;
    site.result(3, b"")?;
    site.kiosk_reads()
}

fn lost(site: &mut Site<impl Write>) -> fmt::Result {
    site.title("4. A lost answer: the kiosk gives up and asks anew, with a fresh id")?;
    site.ask(4)?;
    site.result(4, b"\x02\x01\x0e")?;
    site.tell("channel loses", "this answer")?;
    site.forget(4)?;
    site.ask(5)?;
    site.result(5, b"\x02\x01\x0d")?;
    site.kiosk_reads()
}

fn repeated(site: &mut Site<impl Write>) -> fmt::Result {
    site.title("5. An answer that arrives twice: recorded once")?;
    site.ask(6)?;
    site.result(6, b"\x02\x01\x0f")?;
    site.kiosk_reads()?;
    site.tell("channel repeats", "this answer")?;
    site.kiosk_reads()?;
    site.controller_reads()
}

// Id 7 is left out, since it would read like operation 7.
fn late(site: &mut Site<impl Write>) -> fmt::Result {
    site.title(
        "6. A late answer: the forgotten id rests, so that the old reading is not taken for a new one",
    )?;
    site.ask(8)?;
    site.result(8, b"\x02\x01\x11")?;
    site.tell("channel delays", "this answer")?;
    site.forget(8)?;
    site.ask_alone(8)?;
    site.ask(9)?;
    site.tell("channel delivers", "the answer to invocation 8")?;
    site.kiosk_reads()?;
    site.controller_reads()?;
    site.result(9, b"\x02\x01\x10")?;
    site.kiosk_reads()
}

// The kiosk waits no longer for an answer that it could read.
fn given_up(site: &mut Site<impl Write>, id: u32) -> fmt::Result {
    site.forget(id)?;
    site.record(Note::NotUnderstood)
}

fn not_understood(site: &mut Site<impl Write>) -> fmt::Result {
    site.title("7. A newer controller: an error that the kiosk's table does not have")?;
    site.ask(10)?;
    site.error(10, 2)?;
    site.kiosk_reads()?;
    site.controller_reads()?;
    given_up(site, 10)
}

// A result and its 30 of indefinite lengths.
const ANOTHER: [u8; 17] = *b"\xa2\x80\x02\x01\x0b\x30\x80\x02\x01\x07\x02\x01\x0e\x00\x00\x00\x00";

fn indefinite(site: &mut Site<impl Write>) -> fmt::Result {
    site.title("8. A controller of another make: closing octets 00 00 say where an element ends")?;
    site.ask(11)?;
    site.other_make(&ANOTHER)?;
    site.kiosk_reads()
}

// A result whose value, 00 0e, is not in shortest form.
const WRONG: [u8; 14] = *b"\xa2\x0c\x02\x01\x0c\x30\x07\x02\x01\x07\x02\x02\x00\x0e";

fn at_fault(site: &mut Site<impl Write>) -> fmt::Result {
    site.title(
        "9. A controller of another make: its number is not in shortest form, and the kiosk says where",
    )?;
    site.ask(12)?;
    site.other_make(&WRONG)?;
    site.kiosk_reads()?;
    given_up(site, 12)
}

// A result of an operation that has a name.
const NAMED: [u8; 15] = *b"\xa2\x0d\x02\x01\x0d\x30\x08\x06\x03\x2b\x06\x01\x02\x01\x12";

fn named(site: &mut Site<impl Write>) -> fmt::Result {
    site.title(
        "10. An operation by name: a controller of another make has it, the first controller does not",
    )?;
    site.ask_unlisted(13)?;
    site.tell(
        "kiosk takes",
        "a table of edition 2, which has the operation name 2b0601",
    )?;
    site.ask_by_name(13)?;
    site.other_make(&NAMED)?;
    site.kiosk_reads_by_name()?;
    site.ask_by_name(14)?;
    site.controller_reads()?;
    site.kiosk_reads_by_name()
}

// The whole day.
fn played(site: &mut Site<impl Write>) -> fmt::Result {
    site.line(
        "A water kiosk asks a probe controller for chlorine readings; the channel can fail.",
    )?;
    site.line("Operation 7 reads the probe that its argument names, in hundredths of a mg/l.")?;
    site.line(
        "The library wrote what kiosk and controller send, in hex; each 'reads' line is its answer.",
    )?;
    three_answers(site)?;
    lost(site)?;
    repeated(site)?;
    late(site)?;
    not_understood(site)?;
    indefinite(site)?;
    at_fault(site)?;
    named(site)?;
    fetched(site)?;
    site.close()
}

fn main(rt: HostRuntime) {
    // What is put out is always taken, so that there is no error to pass on.
    let _ = played(&mut Site::open(Out::new(rt.stdout())));
}
