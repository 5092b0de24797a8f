//! Scanners of what stands in a window: VarUInts, and descriptors with the length after them (binary
//! encoding, "Basic Field Formats" and "Typed Value Formats"). Each reads a slice alone.
//!
//! Every test of a region answers `Overrun`. So one test after a length stands for those of the octets
//! before it: where it holds they are in the region too, and where not, one of them is the first outside.
ghost use Rattle.std.specs.Prelude.{◌≡◌, ℕ, ◌+◌, ◌-◌, ◌^◌, ◌<◌, ◌≤◌, ◌&&◌, get_or, length, None, OnOk, IfOk, IfSome};
ghost use Rattle.ion_value.specs.Answers.{itself};
ghost use Rattle.ion_binary.specs.Bodies.{IsBodyTypeCode};
ghost use Rattle.ion_binary.specs.Descriptor.{Region as region, is_unwrappable, length_at, shape_of, var_uint_at};
ghost use Rattle.ion_binary.specs.Finds.{IsOfDescriptor};
ghost use Rattle.ion_binary.specs.Reading.{fits};
ghost use Rattle.ion_binary.specs.Scanned.{EndsAt, IfWhole, IsFound, IsRegion, Shows, as_around, begun, bodied, found_by, itself_found, part_at, wrapping};
ghost use Rattle.ion_binary.specs.Shapes.{as_shape};
ghost use Rattle.ion_binary.specs.Shown.{ShowsLength, ShowsPart, ShowsVar};

use crate::descriptor::Shape;
use ion_meter::fault::Reason;
use ion_meter::profile::Rules;
use ion_value::ion_type::{IonType, Kind};

/// What octets show of the part that begins at the front of them, whatever octets follow.
#[derive(Clone, Copy)]
pub(crate) enum Scanned<T> {
    /// All of it: what it is, and how many octets it has.
    Whole(T, usize),
    /// A fault in it.
    Fault(Reason),
    /// Not all of it: at least one octet more is in its region.
    Cut,
}

/// What is around a part.
#[derive(Clone, Copy)]
pub(crate) enum Within {
    /// Nothing: it stands at top level.
    Top,
    /// A container.
    Container,
    /// An annotation wrapper.
    Wrapper,
}

/// Where a part stands.
#[derive(Clone, Copy)]
pub(crate) struct Region {
    /// What is around it.
    pub(crate) within: Within,
    /// The place where that ends, `TOP` at top level.
    pub(crate) end: u64,
    /// How many containers are open.
    pub(crate) depth: u32,
}

/// The end of the top level, which is after all places.
pub(crate) const TOP: u64 = u64::MAX;

/// What a descriptor and the length after it begin.
#[derive(Clone, Copy)]
pub(crate) enum Found {
    /// A NOP pad, of which so many octets follow.
    NopPad(u64),
    /// A version marker, of which three octets follow.
    Marker,
    /// The null of a type.
    Null(IonType),
    /// A truth value.
    Bool(bool),
    /// A scalar of this type code whose body of so many octets follows.
    Body(u8, u64),
    /// A container's beginning, and the place of its end.
    Begin(Kind, u64),
    /// An annotation wrapper, of which so many octets follow.
    Wrapper(u64),
}

impl Found {
    /// How many octets follow where it is an annotation wrapper.
    #[inline(always)]
    pub(crate) fn wrapped(self) -> Option<u64>
        ensures { result ≡ wrapping self }
    {
        match self {
            Found::Wrapper(count) => Some(count),
            _ => None,
        }
    }
}

// The most octets that a VarUInt has.
const LONGEST: usize = 9;

/// The VarUInt at a place, in a region that ends at another.
pub(crate) fn scan_var(octets: &[u8], place: u64, end: u64) -> Scanned<u64>
    requires { place ≤ 2 ^ 49 }
    ensures shows { (r : region) → EndsAt r end
        → Shows 9 itself place octets.now result (var_uint_at r) }
    ensures fits { IfWhole result (λ n count. (n < 2 ^ 63) × (0 < count) × (count ≤ 9)) }
{
    let mut value = 0;
    for index in 0..LONGEST {
        if end <= place + index as u64 {
            return Scanned::Fault(Reason::Overrun);
        }
        if octets.len() <= index {
            return Scanned::Cut;
        }
        let octet = octets[index];
        value = value * 128 + u64::from(octet % 128);
        if octet >= 128 {
            return Scanned::Whole(value, index + 1);
        }
    }
    Scanned::Fault(Reason::BadVar)
}

/// The number that a VarUInt of one octet or two spells from an offset on, and the offset after it.
///
/// It is the fast path of `scan_var`, and calls nothing, so that a loop in which it stands keeps its
/// values in registers.
#[inline(always)]
pub(crate) fn few_var(octets: &[u8], at: usize) -> Option<(u64, usize)>
    requires { at ≤ length octets.now }
    ensures shows { IfSome result (λ r. ShowsVar octets.now at r.1 r.0) }
    ensures small { IfSome result (λ r. r.0 < 2 ^ 14) }
{
    if octets.len() - at < 2 {
        return None;
    }
    let first = octets[at] as u64;
    if first >= 128 {
        return Some((first - 128, at + 1));
    }
    let second = octets[at + 1] as u64;
    if second >= 128 {
        return Some((first * 128 + (second - 128), at + 2));
    }
    None
}

/// The length that a descriptor with these low four bits has, where it has two octets at most, and the
/// offset after it.
#[inline(always)]
pub(crate) fn few_length(octets: &[u8], at: usize, length_code: u8) -> Option<(u64, usize)>
    requires within { at ≤ length octets.now }
    requires length_code { length_code < 15 }
    ensures shows { IfSome result (λ r. ShowsLength octets.now length_code at r.1 r.0) }
    ensures small { IfSome result (λ r. r.0 < 2 ^ 14) }
{
    if length_code < 14 {
        return Some((length_code as u64, at));
    }
    few_var(octets, at)
}

// The length that a descriptor with these low four bits has: 14 says that a VarUInt follows.
#[inline(always)]
fn scan_length(octets: &[u8], place: u64, end: u64, length_code: u8) -> Scanned<u64>
    requires small { place ≤ 2 ^ 49 }
    requires length_code { length_code < 15 }
    ensures shows { (r : region) → EndsAt r end
        → Shows 9 itself place octets.now result (length_at length_code r) }
    ensures fits { IfWhole result (λ n count. (n < 2 ^ 63) × (count ≤ 9)) }
{
    if length_code < 14 {
        return Scanned::Whole(length_code as u64, 0);
    }
    scan_var(octets, place, end)
}

impl Region {
    // Whether it is a wrapper.
    #[inline(always)]
    fn is_wrapper(self) -> bool
        ensures { result ≡ (as_around self).wrapped }
    {
        match self.within {
            Within::Wrapper => true,
            Within::Top | Within::Container => false,
        }
    }

    // Whether it is a wrapper that may not hold what this octet begins: another wrapper, or a NOP pad.
    #[inline(always)]
    fn refuses(self, octet: u8) -> bool
        ensures { result ≡ (as_around self).wrapped && is_unwrappable octet }
    {
        self.is_wrapper() && (octet / 16 == 14 || octet < 15)
    }

    // Octets that end at a place do not pass the region, and fill it where it is a wrapper.
    #[inline(always)]
    fn check_fits(self, end: u64) -> Result<(), Reason>
        requires region { IsRegion self }
        requires small { end < 2 ^ 64 - 1 }
        ensures gives { (here count : ℕ) → end ≡ here + count
            → result ≡ fits (as_around self) here count }
        ensures within { OnOk result (end ≤ self.end) }
    {
        if self.end < end {
            return Err(Reason::Overrun);
        }
        if self.is_wrapper() && end < self.end {
            return Err(Reason::BadAnnotation);
        }
        Ok(())
    }

    // A scalar of this type code whose body has so many octets, by the place where they end.
    #[inline(always)]
    fn body(self, type_code: u8, end: u64, count: u64, limits: Rules) -> Result<Found, Reason>
        requires region { IsRegion self }
        requires small { end < 2 ^ 64 - 1 }
        requires type_code { IsBodyTypeCode type_code }
        ensures gives { (here : ℕ) → end ≡ here + count
            → result ≡ bodied limits (as_around self) type_code here count }
        ensures found { IfOk result (IsFound limits (as_around self)) }
        ensures within { OnOk result (end ≤ self.end) }
    {
        match self.check_fits(end) {
            Err(reason) => Err(reason),
            Ok(()) if limits.scalar < count => Err(Reason::ScalarLimit),
            Ok(()) => Ok(Found::Body(type_code, count)),
        }
    }

    // A container whose members end at a place.
    #[inline(always)]
    fn begin(self, kind: Kind, end: u64, limits: Rules) -> Result<Found, Reason>
        requires region { IsRegion self }
        requires small { end < 2 ^ 64 - 1 }
        ensures gives { (here count : ℕ) → end ≡ here + count
            → result ≡ begun limits (as_around self) kind here count }
        ensures found { IfOk result (IsFound limits (as_around self)) }
        ensures within { OnOk result (end ≤ self.end) }
    {
        if let Err(reason) = self.check_fits(end) {
            return Err(reason);
        }
        if limits.depth <= self.depth {
            return Err(Reason::DepthLimit);
        }
        Ok(Found::Begin(kind, end))
    }
}

// What a shape begins whose length is known, by the place where so many octets after it end. That is
// given, so that it is a sum which callers have too.
//
// Refuses, in this order, a length above the region, a wrapped value that ends before its wrapper, and
// too many open containers or too long a scalar.
#[inline(always)]
fn found_of(
    shape: Shape,
    end: u64,
    count: u64,
    region: Region,
    limits: Rules,
) -> Result<Found, Reason>
    requires region { IsRegion region }
    requires small { end < 2 ^ 64 - 1 }
    requires count { count < 2 ^ 63 }
    requires shape { IsOfDescriptor (as_shape shape) }
    ensures gives { (here : ℕ) → end ≡ here + count
        → result ≡ found_by limits (as_around region) (as_shape shape) here count }
    ensures found { IfOk result (IsFound limits (as_around region)) }
    ensures within { IfOk result (λ f. wrapping f ≡ None → end ≤ region.end) }
{
    match shape {
        Shape::Container(kind, _) => region.begin(kind, end, limits),
        Shape::Sorted if count == 0 => Err(Reason::BadDescriptor),
        Shape::Sorted => region.begin(Kind::Struct, end, limits),
        Shape::Wrapper(_) => Ok(Found::Wrapper(count)),
        Shape::Float(_) if !limits.floats => Err(Reason::Float),
        Shape::Float(_) => region.body(4, end, count, limits),
        Shape::Illegal => Err(Reason::BadDescriptor),
        Shape::Marker => match region.within {
            Within::Top => Ok(Found::Marker),
            _ => Err(Reason::BadDescriptor),
        },
        Shape::NopPad(_) if region.end < end => Err(Reason::Overrun),
        Shape::NopPad(_) => Ok(Found::NopPad(count)),
        Shape::Null(of) => match region.check_fits(end) {
            Err(reason) => Err(reason),
            Ok(()) => Ok(Found::Null(of)),
        },
        Shape::Bool(truth) => match region.check_fits(end) {
            Err(reason) => Err(reason),
            Ok(()) => Ok(Found::Bool(truth)),
        },
        Shape::Body {
            type_code,
            length_code: _,
        } => region.body(type_code, end, count, limits),
    }
}

/// What a descriptor at an offset of these octets begins that has this shape, where its length has two
/// octets at most; and the offset after that.
///
/// It is the fast path of `scan_part`.
#[inline(always)]
pub(crate) fn few_part(
    octets: &[u8],
    here: u64,
    at: usize,
    shape: Shape,
    region: Region,
    limits: Rules,
) -> Option<(Found, usize)>
    requires region { IsRegion region }
    requires small { here + length octets.now < 2 ^ 63 }
    requires within { at < length octets.now }
    requires shape { as_shape shape ≡ shape_of (get_or octets.now at 0) }
    ensures { IfSome result
        (λ r. ShowsPart limits octets.now here (as_around region) at r.1 r.0) }
{
    if region.refuses(octets[at]) {
        return None;
    }
    let Some((count, after)) = few_length(octets, at + 1, shape.length_code(limits)) else {
        return None;
    };
    let end = here + (after + count as usize) as u64;
    match found_of(shape, end, count, region, limits) {
        Ok(found) => Some((found, after)),
        Err(_) => None,
    }
}

/// What stands at a place in a region: a descriptor, and the length after it.
///
/// Refuses first what a wrapper may not hold, then lengths that do not end, then what `found_of` does.
#[inline(always)]
pub(crate) fn scan_part(octets: &[u8], place: u64, region: Region, limits: Rules) -> Scanned<Found>
    requires region { IsRegion region }
    requires small { place ≤ 2 ^ 48 }
    ensures shows { Shows 10 itself_found place octets.now result
        (part_at limits (as_around region)) }
    ensures found { IfWhole result
        (λ f count. IsFound limits (as_around region) f × (0 < count)) }
{
    if region.end <= place {
        return Scanned::Fault(Reason::Overrun);
    }
    if octets.is_empty() {
        return Scanned::Cut;
    }
    let octet = octets[0];
    if region.refuses(octet) {
        return Scanned::Fault(Reason::BadAnnotation);
    }
    let shape = Shape::of(octet);
    let here = place + 1;
    match scan_length(&octets[1..], here, region.end, shape.length_code(limits)) {
        Scanned::Cut => Scanned::Cut,
        Scanned::Fault(reason) => Scanned::Fault(reason),
        Scanned::Whole(count, n) => {
            match found_of(shape, here + n as u64 + count, count, region, limits) {
                Err(reason) => Scanned::Fault(reason),
                Ok(found) => Scanned::Whole(found, n + 1),
            }
        }
    }
}
