// One entry played after the other.
ghost use Rattle.std.specs.Prelude.{◌≡◌, List, [], ℕ, ◌+◌, ◌<◌, length};
ghost use Rattle.records.specs.Held.{fresh_held};
ghost use Rattle.records.specs.Limits.{octets};
ghost use Rattle.protocol.specs.Call.{receive, written_by, held_after};
ghost use Rattle.protocol.specs.Perform.{perform};
ghost use Rattle.capture.specs.Format.{count};
ghost use Rattle.capture.specs.Entry.{octets_at, following};
ghost use Rattle.player.specs.Play.{play};
ghost use Rattle.player.specs.Reading.{walk_verdict, report_verdict, beside, read_requested, onward, Turned, Led};

use crate::Report;
use crate::asking::{agrees, asked, forgotten};
use crate::written::{Mismatch, answered};
use base::octets::between;
use capture::kind::Kind;
use capture::reader::entry_numbered;
use capture::{count, following, octets_at};
use protocol::Requested;
use records::State;

// The state behind an entry that was played, and the place to play on from.
#[derive(Clone, Copy)]
pub(crate) struct Turn {
    pub(crate) state: State,
    pub(crate) at: usize,
}

#[tactic(auto, using(crate::proofs::PlayLaws::received_goes, crate::proofs::PlayLaws::received_differs))]
fn received(
    table: &[u8],
    capture: &[u8],
    entry: usize,
    state: State,
    store: &mut [u8],
    out: &mut [u8],
) -> Result<Turn, Mismatch>
    requires { length out.old ≡ octets }
    ensures { Turned table.now capture.now (following capture.now entry)
        (onward table.now capture.now (following capture.now entry)
        (held_after (beside state store.old) (perform table.now (beside state store.old) (receive (octets_at capture.now entry) octets)))
        (written_by (perform table.now (beside state store.old) (receive (octets_at capture.now entry) octets))))
        store.new result }
{
    let r = rose::receive(state, store, table, octets_at(capture, entry), out);
    let written = between(out, 0, r.written);
    let at = answered(capture, following(capture, entry), written)?;
    Ok(Turn { state: r.state, at })
}

// Behind an entry whose call was accepted and wrote its octets; what fits no call differs.
#[tactic(auto, using(crate::proofs::PlayLaws::led_behind, crate::proofs::PlayLaws::led_at, crate::proofs::PlayLaws::led_nowhere))]
fn turned(
    capture: &[u8],
    entry: usize,
    requested: Option<Requested>,
    out: &[u8],
    octets: &[u8],
) -> Result<Turn, Mismatch>
    ensures { (store : List ℕ) → Led capture.now entry store (read_requested requested store out.now octets.now) result }
{
    let Some(r) = requested else {
        return Err(Mismatch(entry));
    };
    if !agrees(r.outcome, r.written, out, octets) {
        return Err(Mismatch(entry));
    }
    Ok(Turn {
        state: r.state,
        at: following(capture, entry),
    })
}

#[tactic(auto, using(crate::proofs::PlayLaws::received_turns, crate::proofs::PlayLaws::sent_turns, crate::proofs::PlayLaws::forget_turns, crate::proofs::PlayLaws::nothing_turns))]
fn played_entry(
    table: &[u8],
    capture: &[u8],
    entry: usize,
    state: State,
    store: &mut [u8],
    out: &mut [u8],
) -> Result<Turn, Mismatch>
    requires there { entry < count capture.now }
    requires room { length out.old ≡ octets }
    ensures { Turned table.now capture.now (entry + 1)
        (onward table.now capture.now entry (beside state store.old) []) store.new result }
{
    let e = entry_numbered(capture, entry);
    let octets = between(capture, e.at, e.end);
    let Some(kind) = e.kind else {
        return Err(Mismatch(entry));
    };
    match kind {
        Kind::Received => received(table, capture, entry, state, store, out),
        Kind::Sent => {
            let r = asked(table, state, store, octets, out);
            turned(capture, entry, r, out, octets)
        }
        Kind::Forget => {
            let r = forgotten(table, state, store, octets);
            turned(capture, entry, r, &[], &[])
        }
    }
}

// The entries played one after the other: how many there are, or the first place that differs. No range counts them, since a turn passes an entry and as many
// behind it as receive wrote.
#[tactic(auto, using(crate::proofs::PlayLaws::onward_start, crate::proofs::PlayLaws::turn_differs, crate::proofs::PlayLaws::turn_goes, crate::proofs::PlayLaws::turn_forward, crate::proofs::PlayLaws::turn_within, crate::proofs::PlayLaws::walk_ends))]
fn walked(table: &[u8], capture: &[u8], store: &mut [u8], out: &mut [u8]) -> Result<usize, Mismatch>
    requires store { store.old ≡ fresh_held.store }
    requires room { length out.old ≡ octets }
    ensures { walk_verdict result ≡ play table.now capture.now (count capture.now) 0 fresh_held [] }
{
    let n = count(capture);
    let mut state = State::fresh();
    let mut at: usize = 0;
    while at < n {
        let turn = played_entry(table, capture, at, state, store, out)?;
        state = turn.state;
        at = turn.at;
    }
    Ok(n)
}

// The entries played with one store of kept answers and one output, which has room for any APDU.
#[tactic(auto, using(crate::proofs::PlayLaws::agrees_by, crate::proofs::PlayLaws::differs_by), unfolding(records::specs::Kept::pack_store))]
pub(crate) fn played(table: &[u8], capture: &[u8]) -> Report
    ensures { report_verdict result ≡ play table.now capture.now (count capture.now) 0 fresh_held [] }
{
    let mut store = [0u8; State::STORE_OCTETS];
    let mut out = [0u8; State::OCTETS];
    match walked(table, capture, &mut store, &mut out) {
        Ok(entries) => Report::Agree(entries),
        Err(Mismatch(place)) => Report::Differs(place),
    }
}
