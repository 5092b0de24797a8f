//! Why a stream is refused, and how a run fails.
ghost use Rattle.std.specs.Prelude.{◌≡◌};
ghost use Rattle.ion_meter.specs.Reasons.{number_of, name_of};

use thiserror::Error;

/// Why a stream is refused. The numbers, from 1 on, are stable.
#[derive(Clone, Copy, Debug, PartialEq, Eq)]
pub enum Reason {
    /// The input ends inside a value, or with a container open.
    Truncated = 1,
    /// Binary: an illegal type descriptor.
    BadDescriptor,
    /// Binary: a VarUInt or VarInt that its octets, or nine of them, do not end.
    BadVar,
    /// Binary: a part that goes past the container or wrapper around it.
    Overrun,
    /// A version marker of another version than Ion 1.0.
    BadVersion,
    /// Binary: an annotation wrapper that is malformed, or wraps what it may not.
    BadAnnotation,
    /// Binary: a negative int with magnitude zero.
    BadNumber,
    /// A timestamp whose date, time or offset does not exist.
    BadTimestamp,
    /// A number outside the ranges that are read here.
    Range,
    /// A string or symbol that is no UTF-8, or holds what a text may not.
    BadText,
    /// A float other than `null.float`.
    Float,
    /// Text: no token, or one that cannot stand at its place.
    BadToken,
    /// Text: a malformed blob or clob.
    BadLob,
    /// More open containers than `Limits::depth`.
    DepthLimit,
    /// A scalar longer than `Limits::scalar`.
    ScalarLimit,
    /// The annotations of a value cost more than `Limits::scalar`.
    AnnotationLimit,
    /// A symbol id above the symbol table.
    BadSymbol,
    /// A user value that uses an import slot without text.
    UnknownSymbol,
    /// A malformed declaration of a symbol table.
    BadTable,
    /// A symbol table costs more than `Limits::symbols`.
    SymbolLimit,
    /// A top-level value whose encoding is longer than `Limits::value`.
    ValueLimit,
    /// Binary asked for from binary.
    SameForm,
    /// A malformed or doubled shared symbol table in a catalogue.
    CatalogEntry,
}

impl Reason {
    /// The reason's number, from 1 on.
    pub fn number(self) -> u8
        ensures { result ≡ number_of self }
    {
        self as u8
    }

    /// The reason's name, as fault lines write it.
    pub fn name(self) -> &'static str
        ensures { result.now ≡ name_of self }
    {
        match self {
            Reason::Truncated => "Truncated",
            Reason::BadDescriptor => "BadDescriptor",
            Reason::BadVar => "BadVar",
            Reason::Overrun => "Overrun",
            Reason::BadVersion => "BadVersion",
            Reason::BadAnnotation => "BadAnnotation",
            Reason::BadNumber => "BadNumber",
            Reason::BadTimestamp => "BadTimestamp",
            Reason::Range => "Range",
            Reason::BadText => "BadText",
            Reason::Float => "Float",
            Reason::BadToken => "BadToken",
            Reason::BadLob => "BadLob",
            Reason::DepthLimit => "DepthLimit",
            Reason::ScalarLimit => "ScalarLimit",
            Reason::AnnotationLimit => "AnnotationLimit",
            Reason::BadSymbol => "BadSymbol",
            Reason::UnknownSymbol => "UnknownSymbol",
            Reason::BadTable => "BadTable",
            Reason::SymbolLimit => "SymbolLimit",
            Reason::ValueLimit => "ValueLimit",
            Reason::SameForm => "SameForm",
            Reason::CatalogEntry => "CatalogEntry",
        }
    }
}

/// How a run fails.
///
/// All but `Refused` say something of the run and nothing of the stream.
#[derive(Clone, Copy, Debug, PartialEq, Eq, Error)]
pub enum Fault {
    /// The stream is refused, for this reason and at this place: the first byte of the faulty part,
    /// counted from 0.
    #[error("refused {0:?} at {1}")]
    Refused(Reason, u64),
    /// The allocator refused memory.
    #[error("no memory")]
    Memory,
    /// The input's device failed.
    #[error("read fault")]
    ReadFault,
    /// The output's device failed, or took nothing of bytes that it was given.
    #[error("write fault")]
    WriteFault,
    /// The input has more bytes than `Limits::input`.
    #[error("input limit")]
    InputLimit,
}
