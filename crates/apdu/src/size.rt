// How many octets the fields of an outgoing APDU take: 'The four APDUs'. A given value is empty for none.
ghost use Rattle.std.specs.Prelude.{◌≡◌, ◌+◌, ◌≤◌, ◌<◌, length};
ghost use Rattle.ber.specs.Header.{length_octets};
ghost use Rattle.base.specs.Lists.{non_empty};
ghost use Rattle.apdu.specs.Encode.{code_field, body_field, coded_fields};
ghost use Rattle.apdu.specs.Steps.{number_size};

use ber::header::length_octets;
use ber::integer::integer_octets;
use codes::Code;

// An element with n octets of contents.
#[tactic(auto, using(crate::proofs::SizeLaws::length_most, crate::proofs::SizeLaws::length_huge))]
pub(crate) fn element_size(n: usize) -> usize
    requires { n < 0x8000_0000_0000_1000 }
    ensures value { result ≡ 1 + length (length_octets n) + n }
    ensures most { result ≤ n + 6 }
{
    if n < 0x1_0000_0000 {
        return 1 + length_octets(n as u32) + n;
    }
    n + 6
}

// The element of a number, or the `absent` octets that stand for none.
#[tactic(auto, using(ber::proofs::IntegerLaws::count_within), unfolding(crate::specs::Steps::number_size))]
pub(crate) fn number_size(n: Option<u32>, absent: usize) -> usize
    requires { absent ≤ 6 }
    ensures value { result ≡ number_size absent n }
    ensures most { result ≤ 6 }
{
    n.map_or(absent, |w| integer_octets(w) + 2)
}

#[tactic(auto, using(ber::proofs::IntegerLaws::count_within, crate::proofs::SizeLaws::integer_size, crate::proofs::SizeLaws::name_size), unfolding(crate::specs::Encode::code_field))]
pub(crate) fn code_size(code: Code) -> usize
    ensures value { result ≡ length (code_field code) }
    ensures most { result ≤ 18 }
{
    match code {
        Code::Local(x) => integer_octets(x) + 2,
        Code::Global(name) => name.contents().len() + 2,
    }
}

// The contents of an Invoke, or of an Error, which has no linked id.
#[tactic(auto, using(crate::proofs::SizeLaws::integer_size, crate::proofs::SizeLaws::linked_size, crate::proofs::SizeLaws::coded_size, ber::proofs::IntegerLaws::count_within))]
pub(crate) fn coded_size(id: u32, linked: Option<u32>, code: Code, value: &[u8]) -> usize
    ensures value { result ≡ length (coded_fields id linked code (non_empty value.now)) }
    ensures most { result ≤ length value.now + 30 }
{
    integer_octets(id) + 2 + number_size(linked, 0) + code_size(code) + value.len()
}

#[tactic(auto, using(crate::proofs::SizeLaws::body_none, crate::proofs::SizeLaws::body_size))]
pub(crate) fn body_size(code: Code, value: &[u8]) -> usize
    ensures value { result ≡ length (body_field code (non_empty value.now)) }
    ensures most { result ≤ length value.now + 24 }
{
    if value.is_empty() {
        0
    } else {
        element_size(code_size(code) + value.len())
    }
}
