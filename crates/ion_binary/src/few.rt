//! A few octets, in a word.
ghost use Rattle.std.specs.Prelude.{◌≡◌, ◌+◌, ◌<◌, ◌≤◌, ◌^◌, ◌∷◌, ◌++◌, [], List, ℕ, length, take, IfSome, None, false, if◌then◌else◌};
ghost use Rattle.ion_value.specs.Decimal.{decimal_body};
ghost use Rattle.ion_value.specs.Float.{value_of};
ghost use Rattle.ion_value.specs.FloatOctets.{float_octets};
ghost use Rattle.ion_value.specs.Items.{raw_head};
ghost use Rattle.ion_value.specs.Number.{coefficient_octets, uint_octets, var_int_octets};
ghost use Rattle.ion_value.specs.Scalar.{type_code};
ghost use Rattle.ion_value.specs.Value.{UserSymbol};
ghost use Rattle.ion_binary.specs.Canonical.{headed, header, wrapped};
ghost use Rattle.ion_binary.specs.Held.{counted_ids};
ghost use Rattle.ion_binary.specs.ItemOctets.{head_name, head_octets, is_short, user_head};
ghost use Rattle.ion_binary.specs.Opening.{name_octets, noted};

use ion_float::octets::float_to_octets;
use ion_value::decimal::Decimal;
use ion_value::float::Float64;
use ion_value::ion_type::IonType;
use ion_value::item::Head;
use std::marker::Model;

/// At most eight octets, which are put as one block. A clause sees the list of them.
#[derive(Drop)]
pub(crate) struct Few {
    // The first octet counts least.
    word: u64,
    count: u64,
}

impl Model for Few {
    ghost use Rattle.std.specs.Prelude.{◌^◌, ◌<◌, ◌≤◌, List, ℕ};
    ghost use Rattle.ion_binary.specs.LowOctets.{low_octets};

    ghost Value = { List ℕ };

    ghost view = { λ f. low_octets f.count f.word };

    ghost invariant = { λ f. (f.count ≤ 8) × (f.word < 256 ^ f.count) };
}

impl Few {
    /// One octet.
    #[inline(always)]
    pub fn one(octet: u8) -> Few
        ensures { result ≡ octet ∷ [] }
    {
        Few {
            word: octet as u64,
            count: 1,
        }
    }

    /// How many octets there are.
    #[inline(always)]
    pub fn len(&self) -> usize
        ensures len { result ≡ length self.now }
        ensures few { result ≤ 8 }
    {
        self.count as usize
    }

    /// A block that begins with the octets.
    #[inline(always)]
    pub fn block(&self) -> [u8; 8]
        ensures { take (length self.now) result ≡ self.now }
    {
        self.word.to_le_bytes()
    }

    /// A copy of the octets.
    #[inline(always)]
    pub fn same(&self) -> Few
        ensures { result ≡ self.now }
    {
        Few {
            word: self.word,
            count: self.count,
        }
    }

    /// An octet, and these after it.
    #[inline(always)]
    pub fn after(&self, octet: u8) -> Few
        requires { length self.now < 8 }
        ensures { result ≡ octet ∷ self.now }
    {
        Few {
            word: self.word * 256 + octet as u64,
            count: self.count + 1,
        }
    }
}

/// The header of a body of so many octets, where it has two octets at most.
#[inline(always)]
pub(crate) fn few_header(code: u8, n: usize) -> Option<Few>
    requires code { code < 16 }
    ensures few { IfSome result (λ f. length f ≤ 2) }
    ensures octets { IfSome result (λ f. f ≡ header code n) }
{
    if n < 14 {
        return Some(Few::one(16 * code + n as u8));
    }
    if n < 128 {
        return Some(Few::one(128 + n as u8).after(16 * code + 14));
    }
    None
}

/// A scalar: its header of one octet, and a block that begins with a body of eight at most.
#[derive(Drop)]
pub(crate) struct FewNumber {
    pub(crate) first: Few,
    pub(crate) body: [u8; 8],
    pub(crate) size: usize,
    ghost short: { length first ≤ 2 },
    ghost fits: { size ≤ 8 },
}

// The octets of a scalar whose body is a number of 64 bits.
#[inline(always)]
fn few_number(code: u8, n: u64) -> FewNumber
    requires code { code < 16 }
    ensures { result.first ++ take result.size result.body ≡ headed code (uint_octets n) }
{
    let zeros = n.leading_zeros() / 8;
    let size = 8 - zeros as usize;
    FewNumber {
        first: Few::one(16 * code + size as u8),
        body: n.wrapping_shl(8 * zeros).to_be_bytes(),
        size,
    }
}

// The octets of a float.
#[inline(always)]
fn few_float(float: Float64) -> FewNumber
    ensures { result.first ++ take result.size result.body
        ≡ headed 4 (float_octets (value_of float)) }
{
    let octets = float_to_octets(float);
    let size = octets.len();
    FewNumber {
        first: Few::one(64 + size as u8),
        body: octets.block(),
        size,
    }
}

// The octets of a decimal that is not zero, where 63 bits hold its coefficient and one octet its
// exponent.
#[inline(always)]
fn few_decimal(number: Decimal) -> Option<FewNumber>
    ensures { IfSome result (λ it. it.first ++ take it.size it.body
        ≡ headed 5 (decimal_body number)) }
{
    let magnitude = number.coefficient;
    if magnitude == 0 || magnitude >= 1 << 63 {
        return None;
    }
    let Some(exponent) = var_int_octet(number.exponent < 0, number.exponent.unsigned_abs()) else {
        return None;
    };
    Some(few_coefficient(exponent, number.negative, magnitude as u64))
}

// The octets of a decimal that is not zero: the octet of its exponent, and a coefficient of 63 bits.
#[inline(always)]
fn few_coefficient(exponent: u8, negative: bool, coefficient: u64) -> FewNumber
    requires some { 0 < coefficient }
    requires most { coefficient < 2 ^ 63 }
    ensures { result.first ++ take result.size result.body
        ≡ headed 5 (exponent ∷ coefficient_octets negative coefficient) }
{
    let zeros = (coefficient.leading_zeros() - 1) / 8;
    let size = 8 - zeros as usize;
    let sign = sign_bit(negative);
    FewNumber {
        first: Few::one(exponent).after(81 + size as u8),
        body: (coefficient.wrapping_shl(8 * zeros) + sign).to_be_bytes(),
        size,
    }
}

// A scalar of one octet.
#[inline(always)]
fn few_octet(octet: u8) -> FewNumber
    ensures { result.first ++ take result.size result.body ≡ octet ∷ [] }
{
    FewNumber {
        first: Few::one(octet),
        body: [0; 8],
        size: 0,
    }
}

/// The octets of a null, of a bool, of an int that 64 bits hold, of a float, of most decimals, or of a
/// symbol of this id.
#[inline(always)]
pub(crate) fn few_of(head: Head<'_>, symbol: u32) -> Option<FewNumber>
    ensures long { result ≡ None → is_short (raw_head head.entry) ≡ false }
    ensures octets { IfSome result (λ number. (ids : UserSymbol → ℕ)
        → symbol ≡ head_name ids (user_head head.entry)
        → number.first ++ take number.size number.body ≡ head_octets ids (user_head head.entry)) }
{
    match head {
        Head::Int(int) => match u64::try_from(int.magnitude) {
            Ok(n) => Some(few_number(if int.negative { 3 } else { 2 }, n)),
            Err(_) => None,
        },
        Head::Float(float) => Some(few_float(float)),
        Head::Decimal(decimal) => few_decimal(decimal),
        Head::Symbol(_) => Some(few_number(7, u64::from(symbol))),
        Head::Null(of) => Some(few_octet(16 * type_code(of) + 15)),
        Head::Bool(truth) => Some(few_octet(if truth { 17 } else { 16 })),
        Head::Timestamp(_) | Head::String(_) | Head::Clob(_) | Head::Blob(_) => None,
        Head::Begin(_) | Head::End | Head::Marker => None,
    }
}

// The type code of the null of a type.
#[inline]
fn type_code(of: IonType) -> u8
    ensures code { result ≡ type_code of }
    ensures small { result < 14 }
{
    match of {
        IonType::Null => 0,
        IonType::Bool => 1,
        IonType::Int => 2,
        IonType::Float => 4,
        IonType::Decimal => 5,
        IonType::Timestamp => 6,
        IonType::Symbol => 7,
        IonType::String => 8,
        IonType::Clob => 9,
        IonType::Blob => 10,
        IonType::List => 11,
        IonType::Sexp => 12,
        IonType::Struct => 13,
    }
}

/// The octets of a field's id, those of an annotation's in its wrapper, each 0 where there is none,
/// and the first of a value, which has so many more: where the field's id has two octets at most, and
/// what the annotation adds four.
#[inline(always)]
pub(crate) fn noted_front(front: &Few, more: usize, name: u32, note: u32) -> Option<Few>
    requires few { length front.now ≤ 2 }
    ensures octets { IfSome result (λ f. (x : List ℕ) → length x ≡ more
        → f ++ x ≡ noted name note (front.now ++ x)) }
{
    let Some(inside) = wrapped_front(front, more, note) else {
        return None;
    };
    if name == 0 {
        return Some(inside);
    }
    if name < 128 {
        return Some(inside.after(128 + name as u8));
    }
    if name < 16_384 {
        let last = inside.after(128 + (name % 128) as u8);
        return Some(last.after((name / 128) as u8));
    }
    None
}

// The octets of an annotation's id in its wrapper, and the first of a value, without a field.
#[inline(always)]
fn wrapped_front(front: &Few, more: usize, note: u32) -> Option<Few>
    requires few { length front.now ≤ 2 }
    ensures few { IfSome result (λ f. length f ≤ 6) }
    ensures octets { IfSome result (λ f. (x : List ℕ) → length x ≡ more
        → f ++ x ≡ wrapped (counted_ids (name_octets note)) (front.now ++ x)) }
{
    if note == 0 {
        return Some(front.same());
    }
    if note >= 128 || more >= 124 {
        return None;
    }
    let inside = 2 + front.len() + more;
    let ids = front.after(128 + note as u8).after(129);
    if inside < 14 {
        return Some(ids.after(224 + inside as u8));
    }
    Some(ids.after(128 + inside as u8).after(238))
}

// The octet of a VarInt of six bits and a sign.
#[inline(always)]
fn var_int_octet(negative: bool, magnitude: u32) -> Option<u8>
    ensures { IfSome result (λ octet. octet ∷ [] ≡ var_int_octets negative magnitude) }
{
    if magnitude >= 64 {
        return None;
    }
    if negative {
        return Some(192 + magnitude as u8);
    }
    Some(128 + magnitude as u8)
}

// The sign of a number as the highest bit of a word.
#[inline(always)]
fn sign_bit(negative: bool) -> u64
    ensures { result ≡ (if negative then 2 ^ 63 else 0) }
{
    if negative { 1 << 63 } else { 0 }
}
