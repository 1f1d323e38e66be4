// What a capture's octets say, an octet behind the end being 0.
ghost use Rattle.std.specs.Prelude.{◌≡◌, ◌<◌};
ghost use Rattle.capture.specs.Format.{data_offset, kind, zero_octet, size, offset};

use base::octets::{four, octet, two};

#[tactic(auto, unfolding(crate::specs::Format::data_offset))]
pub(crate) fn data_offset(capture: &[u8]) -> usize
    ensures value { result ≡ data_offset capture.now }
    ensures fits { result < 4294967296 }
{
    four(capture, 4) as usize
}

// An entry of the index: no sum wraps where its number is below any count, and a type for such a number would be made at each call. A reader of one line for each
// field, as Format defines them; `kind` answers an octet, which `kind_right` has that may be none.
pub(crate) fn kind(capture: &[u8], entry: usize) -> u8
    requires { entry < 4294967296 }
    ensures { result ≡ kind capture.now entry }
{
    octet(capture, 8 + entry * 8)
}

pub(crate) fn zero_octet(capture: &[u8], entry: usize) -> u8
    requires { entry < 4294967296 }
    ensures { result ≡ zero_octet capture.now entry }
{
    octet(capture, 8 + entry * 8 + 1)
}

pub(crate) fn size(capture: &[u8], entry: usize) -> u16
    requires { entry < 4294967296 }
    ensures { result ≡ size capture.now entry }
{
    two(capture, 8 + entry * 8 + 2)
}

pub(crate) fn offset(capture: &[u8], entry: usize) -> u32
    requires { entry < 4294967296 }
    ensures { result ≡ offset capture.now entry }
{
    four(capture, 8 + entry * 8 + 4)
}
