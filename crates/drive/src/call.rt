// The six calls: each is made, once or so many times from the state as it was.
use codes::Code;
use protocol::{Indication, Invocation, Received, Refusal, Requested};
use records::{OwnId, PeerId, State};

#[derive(Clone, Copy)]
pub(crate) enum Call<'a> {
    Receive(&'a [u8]),
    Request(Request<'a>),
}

// A request or a forget.
#[derive(Clone, Copy)]
pub(crate) enum Request<'a> {
    Invoke {
        id: OwnId,
        code: Code,
        linked: Option<PeerId>,
        argument: &'a [u8],
    },
    Result {
        id: PeerId,
        value: &'a [u8],
    },
    Error {
        id: PeerId,
        code: Code,
        parameter: &'a [u8],
    },
    Reject {
        id: PeerId,
        // Any octet, as `reject` takes it.
        problem: u8,
    },
    Forget(Invocation),
}

// What a call answered, but for the state: of a receive with the octets that came in.
#[derive(Clone, Copy)]
pub(crate) enum Answer<'a> {
    Received(&'a [u8], Result<Option<Indication>, Refusal>),
    Sent(Result<(), Refusal>),
    Forgotten(Result<(), Refusal>),
}

// The table to make a call with once more: the one that was lent, which the compiler must not know in advance.
fn lent_again(written: usize, table: &[u8]) -> &[u8] {
    if written > State::OCTETS { &[] } else { table }
}

// The store of an end's kept answers.
pub(crate) type Store = [u8; State::STORE_OCTETS];

// What a call is made from, so many times: the state, the store and the table as they stand.
#[derive(Clone, Copy)]
pub(crate) struct Before<'a> {
    pub(crate) times: u64,
    pub(crate) state: State,
    pub(crate) store: Store,
    pub(crate) table: &'a [u8],
}

// One function over both kinds of calls, with the call as a closure, was tried: each turn of its loop copies the state once more, some 350 to 700 instructions a call.
impl<'a> Before<'a> {
    // Between a call and the next: the store as it was, if the call changed the kept answers, of which there are more then or fewer, or the last of eight is another.
    // Gives the table to lend.
    fn again(&self, left: &State, written: usize, store: &mut Store) -> &'a [u8] {
        let was = &self.state.kept;
        let last = State::ANSWERS - 1;
        if was.count != left.kept.count || was.places[last].id != left.kept.places[last].id {
            *store = self.store;
        }
        lent_again(written, self.table)
    }

    pub(crate) fn received(&self, octets: &[u8], store: &mut Store, out: &mut [u8]) -> Received {
        let state = self.state;
        let mut lent = self.table;
        for _ in 1..self.times {
            let r = rose::receive(state, store, lent, octets, out);
            lent = self.again(&r.state, r.written, store);
        }
        rose::receive(state, store, lent, octets, out)
    }

    pub(crate) fn requested(
        &self,
        request: Request,
        store: &mut Store,
        out: &mut [u8],
    ) -> Requested {
        let state = self.state;
        let mut lent = self.table;
        for _ in 1..self.times {
            let r = request.made(state, store, lent, out);
            lent = self.again(&r.state, r.written, store);
        }
        request.made(state, store, lent, out)
    }
}

impl Request<'_> {
    // What it answered.
    pub(crate) fn answered(&self, outcome: Result<(), Refusal>) -> Answer<'static> {
        match self {
            Request::Forget(_) => Answer::Forgotten(outcome),
            _ => Answer::Sent(outcome),
        }
    }

    // Makes it once.
    pub(crate) fn made(
        self,
        state: State,
        store: &mut Store,
        table: &[u8],
        out: &mut [u8],
    ) -> Requested {
        match self {
            Request::Invoke {
                id,
                code,
                linked,
                argument,
            } => rose::invoke(state, store, table, id, code, linked, argument, out),
            Request::Result { id, value } => rose::result(state, store, table, id, value, out),
            Request::Error {
                id,
                code,
                parameter,
            } => rose::error(state, store, table, id, code, parameter, out),
            Request::Reject { id, problem } => rose::reject(state, store, table, id, problem, out),
            Request::Forget(invocation) => rose::forget(state, store, table, invocation),
        }
    }
}
