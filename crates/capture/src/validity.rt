// Whether a capture is valid: its header, each entry by itself, and data end to end.
ghost use Rattle.std.specs.Prelude.{◌≡◌, ◌&&◌, ◌<◌};
ghost use Rattle.base.specs.Count.{every};
ghost use Rattle.capture.specs.Format.{count, size_fits, entry_right, headed, end_to_end};

use crate::read::{data_offset, kind, offset, size, zero_octet};
use crate::{MOST_ENTRIES, count};

#[tactic(auto, unfolding(crate::specs::Format::headed))]
pub(crate) fn is_headed(capture: &[u8]) -> bool
    ensures { result ≡ headed capture.now }
{
    let n = count(capture);
    let data = data_offset(capture);
    capture.len() >= 8 && n <= MOST_ENTRIES && data == 8 + n * 8 && data <= capture.len()
}

// One octet at least and 4,096 at most; a forget's are 5. The kind is the index's octet here, as the definition has it: an entry's kind is right by this test only.
#[tactic(auto, unfolding(crate::specs::Format::size_fits))]
fn is_size_right(kind: u8, size: u16) -> bool
    ensures { result ≡ size_fits kind size }
{
    size >= 1 && size <= 4096 && (kind != 2 || size == 5)
}

#[tactic(auto, unfolding(crate::specs::Format::entry_right, crate::specs::Format::kind_right, crate::specs::Format::zero_right, crate::specs::Format::size_right))]
fn is_entry_right(capture: &[u8], entry: usize) -> bool
    requires { entry < 4294967296 }
    ensures { result ≡ entry_right capture.now entry }
{
    let kind = kind(capture, entry);
    kind <= 2 && zero_octet(capture, entry) == 0 && is_size_right(kind, size(capture, entry))
}

// Each entry is right, and their data stands end to end to the end.
#[tactic(auto, using(crate::proofs::Answers::data_end_none, crate::proofs::Answers::data_end_more, crate::proofs::Answers::entry_wrong, crate::proofs::Answers::entry_misplaced, crate::proofs::Answers::entry_placed, crate::proofs::Answers::walk_decides))]
pub(crate) fn entries_end(capture: &[u8]) -> bool
    ensures { result ≡ (every (entry_right capture.now) (count capture.now) && end_to_end capture.now) }
{
    let mut at = data_offset(capture);
    for i in 0..count(capture) {
        if !is_entry_right(capture, i) {
            return false;
        }
        if offset(capture, i) as usize != at {
            return false;
        }
        at += size(capture, i) as usize;
    }
    at == capture.len()
}
