// A frame of a script, as docs/DRIVE.md has it.
use crate::call::{Call, Request};
use crate::complaint::Complaint;
use base::octets::{between, four, octet, two};
use codes::{Code, Name};
use protocol::Invocation;
use records::{OwnId, PeerId};
use std::io::Read;
use text::input::read_full;

// What a frame is for, by its first octet.
#[derive(Clone, Copy, Debug, PartialEq, Eq)]
pub(crate) enum Kind {
    Table,
    State,
    Receive,
    Invoke,
    Result,
    Error,
    Reject,
    Forget,
}

// An octet that is no kind.
#[derive(Clone, Copy, Debug, PartialEq, Eq)]
pub(crate) struct OtherKind(pub(crate) u8);

impl TryFrom<u8> for Kind {
    type Error = OtherKind;

    fn try_from(octet: u8) -> Result<Kind, OtherKind> {
        match octet {
            0 => Ok(Kind::Table),
            1 => Ok(Kind::State),
            2 => Ok(Kind::Receive),
            3 => Ok(Kind::Invoke),
            4 => Ok(Kind::Result),
            5 => Ok(Kind::Error),
            6 => Ok(Kind::Reject),
            7 => Ok(Kind::Forget),
            _ => Err(OtherKind(octet)),
        }
    }
}

// The numbers before a frame's payload.
#[derive(Clone, Copy)]
pub(crate) struct Frame {
    kind: Kind,
    // What it says depends on the kind: a problem, whether there is a linked id and a name, which side.
    flag: u8,
    pub(crate) room: u16,
    id: u32,
    code: u32,
    linked: u32,
    pub(crate) size: u16,
}

// What a frame brings.
#[derive(Clone, Copy)]
pub(crate) enum Content<'a> {
    Table(&'a [u8]),
    State(&'a [u8]),
    Call(Call<'a>),
}

impl Frame {
    // The next frame of a script, up to its payload; none where the script ends before it.
    pub(crate) fn read(
        input: &mut impl Read,
        number: u64,
    ) -> Result<Option<Frame>, Complaint<'static>> {
        let mut head = [0u8; 18];
        match read_full(input, &mut head) {
            0 => return Ok(None),
            18 => {}
            _ => return Err(Complaint::CutShort { frame: number }),
        }
        let kind = Kind::try_from(head[0]).map_err(|OtherKind(kind)| Complaint::OtherKind {
            frame: number,
            kind,
        })?;
        Ok(Some(Frame {
            kind,
            flag: head[1],
            room: two(&head, 2),
            id: four(&head, 4),
            code: four(&head, 8),
            linked: four(&head, 12),
            size: two(&head, 16),
        }))
    }

    pub(crate) fn content<'a>(&self, payload: &'a [u8]) -> Content<'a> {
        let request = match self.kind {
            Kind::Table => return Content::Table(payload),
            Kind::State => return Content::State(payload),
            Kind::Receive => return Content::Call(Call::Receive(payload)),
            Kind::Invoke => self.invoke(payload),
            Kind::Result => Request::Result {
                id: PeerId(self.id),
                value: payload,
            },
            Kind::Error => self.error(payload),
            Kind::Reject => Request::Reject {
                id: PeerId(self.id),
                problem: self.flag,
            },
            Kind::Forget => Request::Forget(self.invocation()),
        };
        Content::Call(Call::Request(request))
    }

    fn invoke<'a>(&self, payload: &'a [u8]) -> Request<'a> {
        let (code, argument) = self.coded(payload);
        Request::Invoke {
            id: OwnId(self.id),
            code,
            linked: self.link(),
            argument,
        }
    }

    fn error<'a>(&self, payload: &'a [u8]) -> Request<'a> {
        let (code, parameter) = self.coded(payload);
        Request::Error {
            id: PeerId(self.id),
            code,
            parameter,
        }
    }

    // The code of an invoke or an error, and the value: a name stands before the value, behind the octet that says how long it is.
    fn coded<'a>(&self, payload: &'a [u8]) -> (Code, &'a [u8]) {
        if self.flag / 2 % 2 == 0 {
            return (Code::Local(self.code), payload);
        }
        let end = usize::from(octet(payload, 0)) + 1;
        let name = Name::of(between(payload, 1, end));
        (Code::Global(name), between(payload, end, payload.len()))
    }

    fn link(&self) -> Option<PeerId> {
        (self.flag % 2 == 1).then_some(PeerId(self.linked))
    }

    fn invocation(&self) -> Invocation {
        if self.flag == 0 {
            Invocation::Own(OwnId(self.id))
        } else {
            Invocation::Peer(PeerId(self.id))
        }
    }
}
