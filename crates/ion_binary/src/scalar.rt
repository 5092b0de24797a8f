//! The octets of scalars.
ghost use Rattle.std.specs.Prelude.{◌≡◌, ℕ, ◌<◌, ◌≤◌, ◌++◌, false, [], length, take};
ghost use Rattle.ion_value.specs.Items.{raw_head};
ghost use Rattle.ion_value.specs.Value.{UserSymbol};
ghost use Rattle.ion_value.specs.Standing.{HeadInRange};
ghost use Rattle.ion_binary.specs.Canonical.{headed};
ghost use Rattle.ion_binary.specs.Opening.{both_octets, spelled_octets};
ghost use Rattle.ion_binary.specs.ItemOctets.{head_name, head_octets, is_short, user_head};

use crate::few::{FewNumber, few_of};
use crate::opening::{LONGEST, joined, opening};
use arrayvec::ArrayVec;
use ion_value::decimal::decimal_to_bytes;
use ion_value::int::int_to_bytes;
use ion_value::item::Head;
use ion_value::timestamp::timestamp_to_bytes;

/// The octets of a scalar: a header with a body that is short, or before a body that is lent.
#[derive(Drop)]
pub(crate) struct Spelled<'a> {
    /// The header, and a short body.
    pub(crate) front: ArrayVec<u8, LONGEST>,
    /// The body that is lent, if any.
    pub(crate) lent: &'a [u8],
}

impl<'a> Spelled<'a> {
    /// Both parts.
    #[inline(always)]
    pub(crate) fn octets(&self) -> Octets<'_>
        ensures { both_octets result ≡ spelled_octets self.entry.now }
    {
        Octets {
            front: self.front.as_slice(),
            rest: self.lent,
        }
    }
}

/// Octets in two parts, as they are put.
#[derive(Clone, Copy)]
pub(crate) struct Octets<'a> {
    /// The header, and perhaps a short body.
    pub(crate) front: &'a [u8],
    /// The rest of the body.
    pub(crate) rest: &'a [u8],
}

impl<'a> Octets<'a> {
    /// How many octets there are.
    pub(crate) fn len(&self) -> u64
        ensures { result ≡ length (both_octets self.now) }
    {
        self.front.len() as u64 + self.rest.len() as u64
    }
}

/// The octets of a scalar, where a symbol has this id, and none of other heads.
#[inline]
pub(crate) fn spell<'a>(head: Head<'a>, name: u32) -> Spelled<'a>
    requires range { HeadInRange (raw_head head) }
    ensures { (ids : UserSymbol → ℕ) → name ≡ head_name ids (user_head head.entry)
        → spelled_octets result ≡ head_octets ids (user_head head.entry) }
{
    match few_of(head, name) {
        Some(number) => short(&number),
        None => spell_long(head),
    }
}

// The octets of a scalar that has more than few.
#[inline]
fn spell_long<'a>(head: Head<'a>) -> Spelled<'a>
    requires range { HeadInRange (raw_head head) }
    requires long { is_short (raw_head head) ≡ false }
    ensures { (ids : UserSymbol → ℕ)
        → spelled_octets result ≡ head_octets ids (user_head head.entry) }
{
    match head {
        Head::Int(int) => with_body(
            if int.negative { 3 } else { 2 },
            int_to_bytes(int).as_slice(),
        ),
        Head::Decimal(decimal) => with_body(5, decimal_to_bytes(decimal).as_slice()),
        Head::Timestamp(timestamp) => with_body(6, timestamp_to_bytes(timestamp).as_slice()),
        Head::String(text) => with_lent(8, text),
        Head::Clob(bytes) => with_lent(9, bytes),
        Head::Blob(bytes) => with_lent(10, bytes),
        Head::Null(_) | Head::Bool(_) | Head::Float(_) | Head::Symbol(_) => nothing(),
        Head::Begin(_) | Head::End | Head::Marker => nothing(),
    }
}

// No octets.
#[inline]
fn nothing<'a>() -> Spelled<'a>
    ensures { spelled_octets result ≡ [] }
{
    Spelled {
        front: ArrayVec::new(),
        lent: &[],
    }
}

// Few octets.
#[inline]
fn short<'a>(number: &FewNumber) -> Spelled<'a>
    ensures { spelled_octets result
        ≡ number.now.first ++ take number.now.size number.now.body }
{
    let first = number.first.block();
    Spelled {
        front: joined(&first[..number.first.len()], &number.body[..number.size]),
        lent: &[],
    }
}

// A header, and a short body.
#[inline]
fn with_body<'a>(code: u8, body: &[u8]) -> Spelled<'a>
    requires code { code < 16 }
    requires short { length body.now ≤ 26 }
    ensures { spelled_octets result ≡ headed code body.now }
{
    Spelled {
        front: opening(code, body, 0),
        lent: &[],
    }
}

// A header, and a body that is lent.
#[inline]
fn with_lent<'a>(code: u8, body: &'a [u8]) -> Spelled<'a>
    requires { code < 16 }
    ensures { spelled_octets result ≡ headed code body.now }
{
    Spelled {
        front: opening(code, &[], body.len() as u64),
        lent: body,
    }
}
