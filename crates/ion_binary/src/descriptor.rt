//! Descriptor octets (binary encoding, "Typed Value Formats").
ghost use Rattle.std.specs.Prelude.{◌≡◌, ◌<◌, ◌/◌, ◌%◌, slice_index_or};
ghost use Rattle.ion_binary.specs.Descriptor.{shape_of, shape_by, null_shapes, sized_shapes, bool_shape, struct_shape, wrapper_shape, body, illegal};
ghost use Rattle.ion_binary.specs.Scanned.{length_code_of};
ghost use Rattle.ion_binary.specs.Shapes.{as_shape};

use ion_meter::profile::Rules;
use ion_value::ion_type::{IonType, Kind};

/// What a descriptor octet says: `length_code` is its low four bits, L, by which a length goes.
#[derive(Clone, Copy)]
pub(crate) enum Shape {
    /// The null of a type.
    Null(IonType),
    /// A bool.
    Bool(bool),
    /// A NOP pad: octets that are ignored.
    NopPad(u8),
    /// The header of an annotation wrapper.
    Wrapper(u8),
    /// A scalar with a body.
    Body {
        /// Its type code, T.
        type_code: u8,
        /// Its length code, L: the low four bits.
        length_code: u8,
    },
    /// The header of a container.
    Container(Kind, u8),
    /// The header of a struct whose fields are in order.
    Sorted,
    /// The first octet of a version marker.
    Marker,
    /// A float that is no null.
    Float(u8),
    /// Nothing.
    Illegal,
}

impl Shape {
    /// The shape of a descriptor octet: its type code is in the high four bits.
    #[tactic(auto, unfolding(crate::specs::Descriptor::shape_of))]
    #[inline]
    pub(crate) fn of(octet: u8) -> Shape
        ensures { as_shape result ≡ shape_of octet }
    {
        let type_code = octet / 16;
        match octet % 16 {
            15 => Shape::null(type_code),
            length_code => Shape::sized(type_code, length_code),
        }
    }

    /// The length code by which its length goes, and 0 where it has none. A float that is not read has
    /// none, so that it is refused whatever follows.
    #[inline(always)]
    pub(crate) fn length_code(self, limits: Rules) -> u8
        ensures { result ≡ length_code_of limits (as_shape self) }
    {
        match self {
            Shape::NopPad(length_code) | Shape::Wrapper(length_code) => length_code,
            Shape::Container(_, length_code) => length_code,
            Shape::Body {
                type_code: _,
                length_code,
            } => length_code,
            Shape::Float(length_code) if limits.floats => length_code,
            Shape::Float(_) => 0,
            Shape::Sorted => 14,
            Shape::Null(_) | Shape::Bool(_) | Shape::Marker | Shape::Illegal => 0,
        }
    }

    // Where the low four bits are 15.
    #[inline]
    fn null(type_code: u8) -> Shape
        ensures { as_shape result ≡ slice_index_or null_shapes type_code illegal }
    {
        match type_code {
            0 => Shape::Null(IonType::Null),
            1 => Shape::Null(IonType::Bool),
            2 => Shape::Null(IonType::Int),
            3 => Shape::Null(IonType::Int),
            4 => Shape::Null(IonType::Float),
            5 => Shape::Null(IonType::Decimal),
            6 => Shape::Null(IonType::Timestamp),
            7 => Shape::Null(IonType::Symbol),
            8 => Shape::Null(IonType::String),
            9 => Shape::Null(IonType::Clob),
            10 => Shape::Null(IonType::Blob),
            11 => Shape::Null(IonType::List),
            12 => Shape::Null(IonType::Sexp),
            13 => Shape::Null(IonType::Struct),
            _ => Shape::Illegal,
        }
    }

    // Where they are not.
    #[inline]
    fn sized(type_code: u8, length_code: u8) -> Shape
        ensures { as_shape result ≡ slice_index_or (sized_shapes length_code) type_code illegal }
    {
        match type_code {
            0 => Shape::NopPad(length_code),
            1 => Shape::bool(length_code),
            2 => Shape::body(2, length_code),
            3 => Shape::body(3, length_code),
            4 => Shape::Float(length_code),
            5 => Shape::body(5, length_code),
            6 => Shape::body(6, length_code),
            7 => Shape::body(7, length_code),
            8 => Shape::body(8, length_code),
            9 => Shape::body(9, length_code),
            10 => Shape::body(10, length_code),
            11 => Shape::Container(Kind::List, length_code),
            12 => Shape::Container(Kind::Sexp, length_code),
            13 => Shape::structure(length_code),
            14 => Shape::wrapper(length_code),
            _ => Shape::Illegal,
        }
    }

    /// A scalar with a body.
    #[inline]
    pub(crate) fn body(type_code: u8, length_code: u8) -> Shape
        ensures { as_shape result ≡ body type_code length_code }
    {
        Shape::Body {
            type_code,
            length_code,
        }
    }

    #[inline]
    fn bool(length_code: u8) -> Shape
        ensures { as_shape result ≡ bool_shape length_code }
    {
        match length_code {
            0 => Shape::Bool(false),
            1 => Shape::Bool(true),
            _ => Shape::Illegal,
        }
    }

    #[inline]
    fn structure(length_code: u8) -> Shape
        ensures { as_shape result ≡ struct_shape length_code }
    {
        match length_code {
            1 => Shape::Sorted,
            length_code => Shape::Container(Kind::Struct, length_code),
        }
    }

    #[inline]
    fn wrapper(length_code: u8) -> Shape
        ensures { as_shape result ≡ wrapper_shape length_code }
    {
        match length_code {
            0 => Shape::Marker,
            1 | 2 => Shape::Illegal,
            length_code => Shape::Wrapper(length_code),
        }
    }
}
