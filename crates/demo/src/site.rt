// A kiosk and a controller, each with its own table, state and store, and the channel between them: what each does is written, and sent to the other.
use crate::answer::{reception_words, refusal_words};
use crate::channel::End;
use crate::day::Day;
use crate::note::Note;
use crate::table::{CONTROLLER, KIOSK, NAMED};
use base::octets::between;
use codes::{Code, Name};
use protocol::{Invocation, Requested};
use records::{OwnId, PeerId};
use std::fmt;
use std::fmt::Write as _;
use std::io::Write;
use text::out::Out;

// The argument that names probe 3.
pub(crate) const PROBE: [u8; 3] = *b"\x02\x01\x03";

// The octets that receive needs where the table has operation -2; without it fewer do. Outputs are arrays here, since there is no heap.
const ROOM: usize = 528;

// Both ends, the kiosk's record, and where all is written.
#[derive(Drop)]
pub(crate) struct Site<W: Write> {
    to: Out<W>,
    kiosk: End,
    controller: End,
    day: Day,
}

// The operation that has a name.
fn named() -> Code {
    Code::Global(Name::of(b"\x2b\x06\x01"))
}

impl<W: Write> Site<W> {
    pub(crate) fn open(to: Out<W>) -> Self {
        Site {
            to,
            kiosk: End::fresh(),
            controller: End::fresh(),
            day: Day::new(),
        }
    }

    pub(crate) fn line(&mut self, line: &str) -> fmt::Result {
        writeln!(self.to, "{line}")
    }

    // A title, behind an empty line.
    pub(crate) fn title(&mut self, title: &str) -> fmt::Result {
        writeln!(self.to, "\n{title}")
    }

    // What somebody does.
    pub(crate) fn tell(&mut self, who: &str, what: &str) -> fmt::Result {
        writeln!(self.to, "   {who:<18}{what}")
    }

    // The kiosk invokes an operation.
    pub(crate) fn invoke(
        &mut self,
        table: &[u8],
        id: u32,
        code: Code,
        argument: &[u8],
    ) -> fmt::Result {
        let mut out = [0u8; 32];
        let state = self.kiosk.state;
        let store = &self.kiosk.store;
        let own = OwnId(id);
        let r = rose::invoke(state, store, table, own, code, None, argument, &mut out);
        self.kiosk.state = r.state;
        let written = between(&out, 0, r.written);
        let channel = &mut self.controller.channel;
        channel.request(&mut self.to, "kiosk sends", r.outcome, written)
    }

    // The kiosk invokes operation 7.
    pub(crate) fn ask_alone(&mut self, id: u32) -> fmt::Result {
        self.invoke(&KIOSK, id, Code::Local(7), &PROBE)
    }

    // The same, and the controller receives it.
    pub(crate) fn ask(&mut self, id: u32) -> fmt::Result {
        self.ask_alone(id)?;
        self.controller_reads()
    }

    // The kiosk invokes the named operation with its first table, which lacks it.
    pub(crate) fn ask_unlisted(&mut self, id: u32) -> fmt::Result {
        self.invoke(&KIOSK, id, named(), &PROBE)
    }

    pub(crate) fn ask_by_name(&mut self, id: u32) -> fmt::Result {
        self.invoke(&NAMED, id, named(), &PROBE)
    }

    // What the controller's request left: its new state, and the answer on the channel.
    fn answered(&mut self, r: Requested, out: &[u8]) -> fmt::Result {
        self.controller.state = r.state;
        let written = between(out, 0, r.written);
        let channel = &mut self.kiosk.channel;
        channel.request(&mut self.to, "controller sends", r.outcome, written)
    }

    pub(crate) fn result_with(&mut self, table: &[u8], id: u32, value: &[u8]) -> fmt::Result {
        let mut out = [0u8; 32];
        let state = self.controller.state;
        let store = &mut self.controller.store;
        let r = rose::result(state, store, table, PeerId(id), value, &mut out);
        self.answered(r, &out)
    }

    pub(crate) fn result(&mut self, id: u32, value: &[u8]) -> fmt::Result {
        self.result_with(&CONTROLLER, id, value)
    }

    pub(crate) fn error(&mut self, id: u32, code: u32) -> fmt::Result {
        let mut out = [0u8; 32];
        let state = self.controller.state;
        let store = &mut self.controller.store;
        let code = Code::Local(code);
        let r = rose::error(state, store, &CONTROLLER, PeerId(id), code, b"", &mut out);
        self.answered(r, &out)
    }

    // An answer that another library wrote.
    pub(crate) fn other_make(&mut self, apdu: &[u8]) -> fmt::Result {
        let channel = &mut self.kiosk.channel;
        channel.send(&mut self.to, "another sends", apdu)
    }

    // The kiosk gives an invocation up.
    pub(crate) fn forget(&mut self, id: u32) -> fmt::Result {
        let state = self.kiosk.state;
        let own = Invocation::Own(OwnId(id));
        let r = rose::forget(state, &self.kiosk.store, &KIOSK, own);
        self.kiosk.state = r.state;
        match r.outcome {
            Ok(()) => writeln!(self.to, "   {:<18}invocation {id}", "kiosk forgets"),
            Err(why) => {
                write!(self.to, "   {:<18}invocation {id}, ", "kiosk keeps")?;
                refusal_words(&mut self.to, why)?;
                writeln!(self.to, "")
            }
        }
    }

    // The kiosk records what an answer was.
    pub(crate) fn record(&mut self, note: Note) -> fmt::Result {
        let recorded = self.day.record(note);
        writeln!(self.to, "   {:<18}{recorded}", "kiosk records")
    }

    // The kiosk receives what is on the channel, and records what the library says of it.
    pub(crate) fn kiosk_reads_with(&mut self, table: &[u8]) -> fmt::Result {
        let mut out = [0u8; ROOM];
        let r = self.kiosk.receive(table, &mut out);
        let octets = self.kiosk.channel.arriving();
        write!(self.to, "   {:<18}", "kiosk reads")?;
        reception_words(&mut self.to, octets, r.reception, r.place)?;
        writeln!(self.to, "")?;
        let note = Note::of(octets, r.reception);
        self.record(note)?;
        self.kiosk.channel.advance();
        let channel = &mut self.controller.channel;
        channel.send(&mut self.to, "kiosk sends", between(&out, 0, r.written))
    }

    pub(crate) fn kiosk_reads(&mut self) -> fmt::Result {
        self.kiosk_reads_with(&KIOSK)
    }

    // The same with the table of edition 2.
    pub(crate) fn kiosk_reads_by_name(&mut self) -> fmt::Result {
        self.kiosk_reads_with(&NAMED)
    }

    // Not one with `kiosk_reads_with`: the controller keeps no record.
    pub(crate) fn controller_reads_with(&mut self, table: &[u8]) -> fmt::Result {
        let mut out = [0u8; ROOM];
        let r = self.controller.receive(table, &mut out);
        let octets = self.controller.channel.arriving();
        write!(self.to, "   {:<18}", "controller reads")?;
        reception_words(&mut self.to, octets, r.reception, r.place)?;
        writeln!(self.to, "")?;
        let channel = &mut self.kiosk.channel;
        channel.send(
            &mut self.to,
            "controller sends",
            between(&out, 0, r.written),
        )
    }

    pub(crate) fn controller_reads(&mut self) -> fmt::Result {
        self.controller_reads_with(&CONTROLLER)
    }

    // The day's record, at its end.
    pub(crate) fn close(&mut self) -> fmt::Result {
        write!(self.to, "{}", self.day)?;
        self.to.flush();
        Ok(())
    }
}
