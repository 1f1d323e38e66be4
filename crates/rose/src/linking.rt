// What a call asks of the table beside its own operation: the parent of a linked id, and pairs.
ghost use Rattle.std.specs.Prelude.{◌≡◌, true, false, not, ◌&&◌, List, ℕ, MatchResult, Option};
ghost use Rattle.codes.specs.declared.Code.{Code};
ghost use Rattle.records.specs.declared.Record.{Record};
ghost use Rattle.records.specs.Records.{member};
ghost use Rattle.optable.specs.declared.Part.TheVariants.{Operations, Errors};
ghost use Rattle.optable.specs.Lookup.{find, paired, child_of, has_child};
ghost use Rattle.apdu.specs.Reading.{read_own_link, read_peer_link};
ghost use Rattle.protocol.specs.Check.{own_records, peer_records, code_in, is_linked, linked_to};
ghost use Rattle.rose.specs.Usable.{held, table, IsParent};

use crate::usable::{Live, Usable};
use codes::Place;
use optable::Table;
use protocol::Refusal;
use records::{OwnId, PeerId};

// A received Invoke's is an invocation that this end made.
pub(crate) fn own_parent(
    usable: &Usable,
    linked: Option<OwnId>,
    why: Refusal,
) -> Result<Option<Live>, Refusal>
    ensures found { MatchResult result (IsParent (table usable.now) (own_records (held usable.now)) (read_own_link linked)) (λ e. e ≡ why) }
    ensures missing { MatchResult result (λ p. (is_linked (read_own_link linked) && not (member (linked_to (read_own_link linked)) (own_records (held usable.now)))) ≡ false) (λ e. (is_linked (read_own_link linked) && not (member (linked_to (read_own_link linked)) (own_records (held usable.now)))) ≡ true) }
{
    match linked {
        None => Ok(None),
        Some(id) => usable.own(id).map(Some).ok_or(why),
    }
}

// An invoke request's is an invocation that this end received.
// Beside `own_parent`, since the ids and the records of the two sides are two.
pub(crate) fn peer_parent(
    usable: &Usable,
    linked: Option<PeerId>,
    why: Refusal,
) -> Result<Option<Live>, Refusal>
    ensures found { MatchResult result (IsParent (table usable.now) (peer_records (held usable.now)) (read_peer_link linked)) (λ e. e ≡ why) }
    ensures missing { MatchResult result (λ p. (is_linked (read_peer_link linked) && not (member (linked_to (read_peer_link linked)) (peer_records (held usable.now)))) ≡ false) (λ e. (is_linked (read_peer_link linked) && not (member (linked_to (read_peer_link linked)) (peer_records (held usable.now)))) ≡ true) }
{
    match linked {
        None => Ok(None),
        Some(id) => usable.peer(id).map(Some).ok_or(why),
    }
}

// Whether the parent has no child.
#[tactic(auto, using(crate::proofs::LinkLaws::childless))]
pub(crate) fn is_childless(table: &Table, parent: Option<Live>) -> bool
    ensures { (l : List Record) (n : Option ℕ) → IsParent table.now.octets.now l n parent → result ≡ (is_linked n && not (has_child table.now.octets.now (code_in l (linked_to n)))) }
{
    match parent {
        Some(live) => !table.has_child_at(live.place),
        None => false,
    }
}

// Whether the operation at the place is no child of the parent's.
#[tactic(auto, using(crate::proofs::LinkLaws::no_child))]
pub(crate) fn is_no_child(table: &Table, parent: Option<Live>, place: Place) -> bool
    ensures { (l : List Record) (n : Option ℕ) (c : Code) → IsParent table.now.octets.now l n parent → place ≡ find table.now.octets.now Operations c → result ≡ (is_linked n && not (child_of table.now.octets.now (code_in l (linked_to n)) c)) }
{
    match parent {
        Some(live) => !table.is_child_at(live.place, place),
        None => false,
    }
}

// Whether the error at the place is paired with the invocation's operation.
#[tactic(auto, using(crate::proofs::LinkLaws::paired_places))]
pub(crate) fn is_paired(table: &Table, live: Live, place: Place) -> bool
    ensures { (c e : Code) → live.place ≡ find table.now.octets.now Operations c → place ≡ find table.now.octets.now Errors e → result ≡ paired table.now.octets.now c e }
{
    table.is_paired_at(live.place, place)
}
