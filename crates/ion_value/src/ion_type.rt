//! The types of Ion values.

/// The type of an Ion value (Ion specification, "The Ion Data Model").
///
/// Each type has a null of its own too ("Null Values").
#[derive(Clone, Copy, Debug, PartialEq, Eq)]
pub enum IonType {
    /// `null.null`, the null with no other type.
    Null,
    /// Truth values.
    Bool,
    /// Whole numbers.
    Int,
    /// Binary floating-point numbers.
    Float,
    /// Decimal numbers, which keep their precision.
    Decimal,
    /// Moments, to a precision and with an offset from UTC or none.
    Timestamp,
    /// Interned texts.
    Symbol,
    /// Texts in Unicode.
    String,
    /// Octets that are a text in no known encoding.
    Clob,
    /// Octets.
    Blob,
    /// Values in order, in `[..]`.
    List,
    /// Values in order, in `(..)`.
    Sexp,
    /// Fields, each a symbol and a value, in `{..}`.
    Struct,
}

/// What a container is (Ion specification, "Container Types").
#[derive(Clone, Copy, Debug, PartialEq, Eq)]
pub enum Kind {
    /// Values in order, in `[..]`.
    List,
    /// Values in order, in `(..)`.
    Sexp,
    /// Fields, each a symbol and a value, in `{..}`.
    Struct,
}
