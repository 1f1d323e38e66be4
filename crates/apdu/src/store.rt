// The fields of an outgoing APDU, stored where there is room; each answers where the next goes: 'The four APDUs'. The output and the place in it stay
// two parameters, as ber's writers take them: a struct of both would be taken apart at each of these calls.
ghost use Rattle.std.specs.Prelude.{◌≡◌, ◌∷◌, ◌+◌, ◌≤◌, ◌<◌, length};
ghost use Rattle.codes.specs.Code.{name_contents};
ghost use Rattle.ber.specs.Header.{length_octets};
ghost use Rattle.base.specs.Lists.{non_empty};
ghost use Rattle.ber.specs.Element.{element_octets};
ghost use Rattle.ber.specs.Steps.{Stored};
ghost use Rattle.apdu.specs.Encode.{integer_field, code_field, linked_field, rejected_field, body_field};

use crate::size::code_size;
use ber::header::put_length;
use ber::integer::{integer_octets, put_integer};
use ber::output::{put_octet, put_octets};
use codes::{Code, Name};

// Identifier and length of an element with n octets of contents.
pub(crate) fn store_header(out: &mut [u8], at: usize, identifier: u8, n: u32) -> usize
    requires { at + length (identifier ∷ length_octets n) ≤ length out.old }
    ensures { Stored out.old at (identifier ∷ length_octets n) out.new result }
{
    let length_at = put_octet(out, at, identifier);
    put_length(out, length_at, n)
}

#[tactic(auto, using(ber::proofs::IntegerLaws::count_within))]
pub(crate) fn store_integer(out: &mut [u8], at: usize, identifier: u8, w: u32) -> usize
    requires { at + length (integer_field identifier w) ≤ length out.old }
    ensures { Stored out.old at (integer_field identifier w) out.new result }
{
    let contents_at = store_header(out, at, identifier, integer_octets(w) as u32);
    put_integer(out, contents_at, w)
}

fn store_name(out: &mut [u8], at: usize, name: Name) -> usize
    requires { at + length (element_octets 0x06 (name_contents name)) ≤ length out.old }
    ensures { Stored out.old at (element_octets 0x06 (name_contents name)) out.new result }
{
    let contents = name.contents();
    let contents_at = store_header(out, at, 0x06, contents.len() as u32);
    put_octets(out, contents_at, contents)
}

#[tactic(auto, using(ber::proofs::OutputLaws::stored_as), unfolding(crate::specs::Encode::code_field))]
pub(crate) fn store_code(out: &mut [u8], at: usize, code: Code) -> usize
    requires { at + length (code_field code) ≤ length out.old }
    ensures { Stored out.old at (code_field code) out.new result }
{
    match code {
        Code::Local(x) => store_integer(out, at, 0x02, x),
        Code::Global(name) => store_name(out, at, name),
    }
}

#[tactic(auto, using(crate::proofs::EncodeAnswers::stored_none, ber::proofs::OutputLaws::stored_as), unfolding(crate::specs::Encode::linked_field))]
pub(crate) fn store_linked(out: &mut [u8], at: usize, linked: Option<u32>) -> usize
    requires { at + length (linked_field linked) ≤ length out.old }
    ensures { Stored out.old at (linked_field linked) out.new result }
{
    match linked {
        None => at,
        Some(l) => store_integer(out, at, 0x80, l),
    }
}

// 05 00 where there is no id. Not one with `store_linked`, where nothing stands for none.
#[tactic(auto, using(crate::proofs::EncodeAnswers::rejected_null, ber::proofs::OutputLaws::stored_as), unfolding(crate::specs::Encode::rejected_field))]
pub(crate) fn store_rejected(out: &mut [u8], at: usize, id: Option<u32>) -> usize
    requires { at + length (rejected_field id) ≤ length out.old }
    ensures { Stored out.old at (rejected_field id) out.new result }
{
    match id {
        None => store_header(out, at, 0x05, 0),
        Some(i) => store_integer(out, at, 0x02, i),
    }
}

// 30 with a code and a value, or nothing.
#[tactic(auto, using(crate::proofs::SizeLaws::body_none, crate::proofs::SizeLaws::body_size, crate::proofs::EncodeAnswers::stored_none, ber::proofs::OutputLaws::stored_as))]
pub(crate) fn store_body(out: &mut [u8], at: usize, code: Code, value: &[u8]) -> usize
    requires room { at + length (body_field code (non_empty value.now)) ≤ length out.old }
    requires short { length value.now < 0x1_0000 }
    ensures { Stored out.old at (body_field code (non_empty value.now)) out.new result }
{
    if value.len() == 0 {
        return at;
    }
    let inside = code_size(code) + value.len();
    let code_at = store_header(out, at, 0x30, inside as u32);
    let value_at = store_code(out, code_at, code);
    put_octets(out, value_at, value)
}
