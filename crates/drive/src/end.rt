// One end of an association: its table, its state and the store of its kept answers, as a script's frames change them.
use crate::arguments::Asked;
use crate::call::{Answer, Before, Call, Store};
use crate::frame::Content;
use crate::image::imaged;
use crate::line::{Line, SPOILABLE, WholeLine};
use arrayvec::ArrayVec;
use records::State;
use std::fmt::Write as _;
use std::io::Write;
use text::out::{Out, words};

#[derive(Drop)]
pub(crate) struct End {
    table: ArrayVec<u8, 65536>,
    pub(crate) state: State,
    pub(crate) store: Store,
}

// A call that was made: what it answered, the place that it names, 0 for none as the calls answer it, and how many octets it wrote.
#[derive(Clone, Copy)]
pub(crate) struct Made<'a> {
    pub(crate) answer: Answer<'a>,
    pub(crate) place: usize,
    pub(crate) written: usize,
}

impl End {
    pub(crate) fn fresh() -> Self {
        End {
            table: ArrayVec::new(),
            state: State::fresh(),
            store: [0; State::STORE_OCTETS],
        }
    }

    // What a frame brings: of a call the line is written, at once, since it answers another program. The output that is lent is as large as the frame says.
    pub(crate) fn take(
        &mut self,
        to: &mut Out<impl Write>,
        whole: &mut WholeLine,
        asked: Asked,
        content: Content,
        out: &mut [u8],
    ) {
        match content {
            Content::Table(table) => {
                self.table.clear();
                // A payload has at most 65,535 octets, so that it fits.
                let _ = self.table.try_extend_from_slice(table);
            }
            Content::State(image) => self.state = imaged(image, &mut self.store, self.state),
            Content::Call(call) => {
                out.fill(SPOILABLE);
                let made = self.call(call, asked.times, out);
                let line = Line {
                    made,
                    end: self,
                    lent: out,
                    places: asked.places,
                };
                whole.clear();
                // It has room for every line, so that there is no error to pass on.
                let _ = writeln!(whole, "{line}");
                words(to, whole.as_bytes());
            }
        }
    }

    // Makes a call so many times from the state as it was, and keeps what the last one left.
    fn call<'a>(&mut self, call: Call<'a>, times: u64, out: &mut [u8]) -> Made<'a> {
        let before = Before {
            times,
            state: self.state,
            store: self.store,
            table: self.table.as_slice(),
        };
        match call {
            Call::Receive(octets) => {
                let r = before.received(octets, &mut self.store, out);
                self.state = r.state;
                Made {
                    answer: Answer::Received(octets, r.reception),
                    place: r.place,
                    written: r.written,
                }
            }
            Call::Request(request) => {
                let r = before.requested(request, &mut self.store, out);
                self.state = r.state;
                Made {
                    answer: request.answered(r.outcome),
                    place: r.place,
                    written: r.written,
                }
            }
        }
    }
}
