//! Bodies of scalars (binary encoding, "Typed Value Formats").
ghost use Rattle.std.specs.Prelude.{◌≡◌, ◌*◌, ◌≢◌, ◌+◌, ◌-◌, ◌^◌, ◌<◌, ◌≤◌, ℕ, List, length, take, Ok, Err, true, false, IfOk, OnOk, MatchResult, IsTrue, ◌↔◌, IsAscii, IsUtf8};
ghost use Rattle.ion_meter.specs.Windows.{left, lent};
ghost use Rattle.ion_value.specs.Number.{uint};
ghost use Rattle.ion_value.specs.Name.{raw_id};
ghost use Rattle.ion_value.specs.Float.{IsFloat, value_of};
ghost use Rattle.ion_value.specs.Int.{IsInt, int_of_bytes};
ghost use Rattle.ion_value.specs.Scalar.{scalar_of_body};
ghost use Rattle.ion_value.specs.Standing.{InRange};
ghost use Rattle.ion_value.specs.Value.{float};
ghost use Rattle.ion_meter.specs.Sources.{skip, cursor, Stands};
ghost use Rattle.ion_binary.specs.Bodies.{as_scalar, IsBodyTypeCode};
ghost use Rattle.ion_value.specs.Answers.{Answers};
ghost use Rattle.ion_binary.specs.Parts.{body_here};
ghost use Rattle.ion_value.specs.Calls.{AnswersBy, CanRead, Reads, ReadsInto, passed_over};
ghost use Rattle.ion_value.specs.Shares.{GrowsWithin};

use ion_float::octets::float_from_octets;
use ion_meter::buf::Buf;
use ion_meter::device::Input;
use ion_meter::fault::{Fault, Reason};
use ion_meter::meter::Meter;
use ion_meter::profile::Rules;
use ion_meter::source::Source;
use ion_value::decimal::{Decimal, decimal_from_bytes};
use ion_value::float::Float64;
use ion_value::int::{Int, int_from_bytes};
use ion_value::ion_type::IonType;
use ion_value::timestamp::{Timestamp, timestamp_from_bytes};
use std::alloc::Allocator;

/// A scalar that was read. The bytes of a string, clob or blob stand in a buffer beside it.
#[derive(Clone, Copy)]
pub(crate) enum Body {
    /// The null of a type.
    Null(IonType),
    /// A truth value.
    Bool(bool),
    /// An int.
    Int(Int),
    /// A float.
    Float(Float64),
    /// A decimal.
    Decimal(Decimal),
    /// A timestamp in local time.
    Timestamp(Timestamp),
    /// A symbol's id, where 2^31 stands for every id above 2^31 - 1.
    Symbol(u32),
    /// A string.
    String,
    /// A clob.
    Clob,
    /// A blob.
    Blob,
}

// The type code of strings, and the least of those whose octets are kept.
const STRING: u8 = 8;

/// An id as readers give it.
#[inline]
pub(crate) fn id_of(n: u64) -> u32
    ensures { result ≡ raw_id n }
{
    n.min(1 << 31) as u32
}

// The number that these octets spell, which are so few that 64 bits hold it.
#[inline(always)]
fn few_value(octets: &[u8]) -> u64
    requires { length octets.now ≤ 8 }
    ensures { result ≡ uint octets.now }
{
    let mut value: u64 = 0;
    for octet in octets {
        value = value * 256 + *octet as u64;
    }
    value
}

// The id that a UInt spells.
#[inline(always)]
fn uint_id(octets: &[u8]) -> u32
    ensures { result ≡ raw_id (uint octets.now) }
{
    if octets.len() <= 8 {
        return id_of(few_value(octets));
    }
    long_id(octets)
}

// The id that a UInt of any number of octets spells.
#[inline(never)]
fn long_id(octets: &[u8]) -> u32
    ensures { result ≡ raw_id (uint octets.now) }
{
    match int_from_bytes(false, octets) {
        Ok(int) => int.magnitude.min(1 << 31) as u32,
        Err(_) => 1 << 31,
    }
}

// An int of these octets, of which there mostly are few.
#[inline(always)]
fn int_of(negative: bool, octets: &[u8]) -> Result<Int, Reason>
    ensures gives { result ≡ int_of_bytes negative octets.now }
    ensures range { IfOk result IsInt }
{
    if octets.len() > 8 {
        return int_from_bytes(negative, octets);
    }
    let magnitude = few_value(octets) as u128;
    if negative && magnitude == 0 {
        return Err(Reason::BadNumber);
    }
    Ok(Int {
        negative,
        magnitude,
    })
}

// A float of these octets.
#[tactic(auto, unfolding(ion_value::specs::Scalar::scalar_of_body))]
#[inline]
fn float_of(octets: &[u8]) -> Result<Float64, Reason>
    ensures gives { MatchResult result (λ x. scalar_of_body 4 octets.now ≡ Ok (float (value_of x)))
        (λ r. scalar_of_body 4 octets.now ≡ Err r) }
    ensures range { IfOk result (λ x. IsFloat (value_of x)) }
{
    match float_from_octets(octets) {
        Some(float) => Ok(float),
        None => Err(Reason::BadDescriptor),
    }
}

/// The scalar that octets are, by its type code.
#[tactic(auto, unfolding(ion_value::specs::Scalar::scalar_of_body))]
#[inline(always)]
pub(crate) fn scalar_of(type_code: u8, octets: &[u8]) -> Result<Body, Reason>
    requires type_code { IsBodyTypeCode type_code }
    ensures gives { MatchResult result
        (λ b. scalar_of_body type_code octets.now ≡ Ok (as_scalar octets.now b))
        (λ r. scalar_of_body type_code octets.now ≡ Err r) }
    ensures number { type_code < 8 → IfOk result (λ b. (text : List ℕ)
        → as_scalar text b ≡ as_scalar octets.now b) }
    ensures range { IfOk result (λ b. InRange (as_scalar octets.now b)) }
{
    Ok(match type_code {
        2 => Body::Int(int_of(false, octets)?),
        3 => Body::Int(int_of(true, octets)?),
        4 => Body::Float(float_of(octets)?),
        5 => Body::Decimal(decimal_from_bytes(octets)?),
        6 => Body::Timestamp(timestamp_from_bytes(octets)?),
        7 => Body::Symbol(uint_id(octets)),
        8 if is_text(octets) => Body::String,
        8 => return Err(Reason::BadText),
        9 => Body::Clob,
        _ => Body::Blob,
    })
}

// Whether octets are UTF-8.
#[inline]
fn is_text(octets: &[u8]) -> bool
    ensures { IsTrue result ↔ IsUtf8 octets.now }
{
    is_short_ascii(octets) || simdutf8::basic::from_utf8(octets).is_ok()
}

// The most octets of a text that are looked at one after the other; `simdutf8` is faster on more.
const SHORT: usize = 32;

// Whether octets are few, and each of them is ASCII.
#[inline(always)]
fn is_short_ascii(octets: &[u8]) -> bool
    ensures { result ≡ true → IsAscii octets.now }
{
    if octets.len() > SHORT {
        return false;
    }
    'octets: for octet in octets {
        if *octet >= 128 {
            return false;
        }
    }
    true
}

// Puts the scalar that octets are into a body.
#[inline(never)]
fn put_scalar(type_code: u8, octets: &[u8], body: &mut Body) -> Result<(), Reason>
    requires type_code { IsBodyTypeCode type_code }
    ensures gives { MatchResult result
        (λ _. scalar_of_body type_code octets.now ≡ Ok (as_scalar octets.now body.new))
        (λ r. scalar_of_body type_code octets.now ≡ Err r) }
    ensures range { OnOk result (InRange (as_scalar octets.now body.new)) }
{
    match scalar_of(type_code, octets) {
        Err(reason) => Err(reason),
        Ok(scalar) => {
            *body = scalar;
            Ok(())
        }
    }
}

/// Passes over n octets; false where the input ends before.
pub(crate) fn pass_over<I: Input, A: Allocator + Copy>(
    source: &mut Source<I, A>,
    count: u64,
) -> Result<bool, Fault>
    requires stands { Stands source.old }
    ensures all { I.observable source.old.device → result ≡ Ok true
        → (count ≤ length (left I.rest source.old))
        × (cursor I.Input source.new ≡ skip count (cursor I.Input source.old)) }
    ensures cut { I.observable source.old.device → result ≡ Ok false
        → length (left I.rest source.old) < count }
    ensures plain { (r : Reason) (p : ℕ) → result ≢ Err (Fault.Refused r p) }
    ensures reads { Reads I.Input source.old source.new result }
{
    let mut more = count;
    while more > 0 {
        match source.peek(0) {
            Err(fault) => return Err(fault),
            Ok(None) => return Ok(false),
            Ok(Some(_)) => {}
        }
        let here = more.min(source.buffer().len() as u64);
        source.consume(here as usize);
        more -= here;
    }
    Ok(true)
}

// Copies the next octets, so many of them; false where the input ends before.
fn gather<I: Input, A: Allocator + Copy>(
    source: &mut Source<I, A>,
    text: &mut Buf<A>,
    count: usize,
    limits: Rules,
    meter: &mut Meter<A>,
) -> Result<bool, Fault>
    requires can_read { CanRead limits limits.scalar source.old text.old meter.old }
    requires small { count ≤ limits.scalar }
    ensures all { I.observable source.old.device → result ≡ Ok true
        → (count ≤ length (left I.rest source.old))
        × (text.new ≡ take count (left I.rest source.old))
        × (cursor I.Input source.new ≡ skip count (cursor I.Input source.old)) }
    ensures cut { I.observable source.old.device → result ≡ Ok false
        → length (left I.rest source.old) < count }
    ensures plain { (r : Reason) (p : ℕ) → result ≢ Err (Fault.Refused r p) }
    ensures reads { ReadsInto I.Input source.old source.new meter.old meter.new
        (length text.old) (length text.new) limits.scalar result }
    ensures goes { GrowsWithin meter.old meter.new (length text.old) (length text.new)
        (16 * passed_over source.old source.new) }
{
    text.clear(meter);
    while text.as_slice().len() < count {
        match source.peek(0) {
            Err(fault) => return Err(fault),
            Ok(None) => return Ok(false),
            Ok(Some(_)) => {}
        }
        let octets = source.buffer();
        let here = octets.len().min(count - text.as_slice().len());
        if let Err(fault) = text.extend(meter, &octets[..here]) {
            return Err(fault);
        }
        source.consume(here);
    }
    Ok(true)
}

// A number, a timestamp or a symbol whose octets lie in the window.
#[inline(always)]
fn number_in_window<I: Input, A: Allocator + Copy>(
    source: &mut Source<I, A>,
    body: &mut Body,
    type_code: u8,
    count: usize,
    limits: Rules,
    place: u64,
) -> Result<(), Fault>
    requires stands { Stands source.old }
    requires type_code { IsBodyTypeCode type_code }
    requires number { type_code < 8 }
    requires there { count ≤ length (lent source.old) }
    requires small { count ≤ limits.scalar }
    ensures gives { (text : List ℕ) → Answers (λ _. as_scalar text body.new) result
        (cursor I.Input source.new) place
        (body_here limits type_code count (cursor I.Input source.old)) }
    ensures range { OnOk result ((text : List ℕ) → InRange (as_scalar text body.new)) }
    ensures reads { Reads I.Input source.old source.new result }
{
    match scalar_of(type_code, &source.buffer()[..count]) {
        Err(reason) => return Err(Fault::Refused(reason, place)),
        Ok(scalar) => *body = scalar,
    }
    source.consume(count);
    Ok(())
}

/// The scalar of a type code whose body has n octets, in a part that begins at a place.
///
/// The octets of a string or lob are copied to `text`, once, and those of a number that does not lie
/// whole in the window too. Answers `Truncated` where the input ends before the body does, then what is
/// wrong in the body.
#[tactic(auto, unfolding(crate::specs::Parts::body_here))]
#[inline(always)]
pub(crate) fn next_body<I: Input, A: Allocator + Copy>(
    source: &mut Source<I, A>,
    text: &mut Buf<A>,
    body: &mut Body,
    type_code: u8,
    count: u64,
    limits: Rules,
    place: u64,
    meter: &mut Meter<A>,
) -> Result<(), Fault>
    requires can_read { CanRead limits limits.scalar source.old text.old meter.old }
    requires type_code { IsBodyTypeCode type_code }
    requires small { count ≤ limits.scalar }
    ensures gives { AnswersBy I.Input (λ _. as_scalar text.new body.new)
        source.old source.new place result (body_here limits type_code count) }
    ensures range { OnOk result (InRange (as_scalar text.new body.new)) }
    ensures reads { ReadsInto I.Input source.old source.new meter.old meter.new
        (length text.old) (length text.new) limits.scalar result }
    ensures goes { GrowsWithin meter.old meter.new (length text.old) (length text.new)
        (16 * passed_over source.old source.new) }
{
    let count = count as usize;
    if type_code < STRING && count <= source.buffer().len() {
        return number_in_window(source, body, type_code, count, limits, place);
    }
    match gather(source, text, count, limits, meter) {
        Err(fault) => return Err(fault),
        Ok(false) => return Err(Fault::Refused(Reason::Truncated, place)),
        Ok(true) => {}
    }
    if let Err(reason) = put_scalar(type_code, text.as_slice(), body) {
        return Err(Fault::Refused(reason, place));
    }
    Ok(())
}
