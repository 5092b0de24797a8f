//! Rows of scalars that come with a text that is new.

use crate::written::{Part, Step};
use crate::written_items::{END, LIST, NAME, Row, STRUCT, SYMBOLS, VALUE, VERSION};
use ion_meter::fault::{Fault, Reason};
use ion_value::ion_type::IonType;

// Three fields.
const THREE: [Step<'static>; 5] = [
    STRUCT,
    (Some(b"a"), &[], Part::Int(b"1")),
    (Some(b"b"), &[], Part::Int(b"1")),
    (Some(b"c"), &[], Part::Int(b"1")),
    END,
];

/// A new text is that of a field or of a symbol value.
pub const NEW_TEXTS: &[Row] = &[
    // Each kind of scalar after a new field.
    (
        VALUE,
        SYMBOLS,
        &[
            STRUCT,
            (Some(b"a"), &[], Part::Null(IonType::Null)),
            (Some(b"b"), &[], Part::Bool(true)),
            (Some(b"c"), &[], Part::Int(b"5")),
            (Some(b"d"), &[], Part::Int(b"-18446744073709551616")),
            (Some(b"e"), &[], Part::Decimal(b"0.")),
            (Some(b"g"), &[], Part::Decimal(b"1.5")),
            (Some(b"h"), &[], Part::Timestamp(b"2007T")),
            (Some(b"i"), &[], Part::Symbol(b"name")),
            (Some(b"j"), &[], Part::Text(b"abc")),
            (Some(b"k"), &[], Part::Text(b"01234567890123")),
            (Some(b"l"), &[], Part::Clob(b"\x00\xFF")),
            (Some(b"m"), &[], Part::Blob(b"\x00")),
            END,
        ],
        Ok(()),
        "E0 01 00 EA EE A2 81 83 DE 9E 86 71 03 87 BE 98 81 61 81 62 81 63 81 64 81 65 81 67 \
         81 68 81 69 81 6A 81 6B 81 6C 81 6D DE BD 8A 0F 8B 11 8C 21 05 8D 39 01 00 00 00 00 \
         00 00 00 00 8E 50 8F 52 C1 0F 90 63 C0 0F D7 91 71 04 92 83 61 62 63 93 8E 8E 30 31 \
         32 33 34 35 36 37 38 39 30 31 32 33 94 92 00 FF 95 A1 00",
    ),
    // New symbols, after fields that have ids or not, and a field that is its own symbol.
    (
        VALUE,
        SYMBOLS,
        &[
            STRUCT,
            (Some(b"a"), &[], Part::Symbol(b"x")),
            (Some(b"b"), &[], Part::Symbol(b"a")),
            (Some(b"a"), &[], Part::Symbol(b"y")),
            (Some(b"name"), &[], Part::Symbol(b"z")),
            (Some(b"c"), &[], Part::Symbol(b"c")),
            END,
        ],
        Ok(()),
        "E0 01 00 EA EE 95 81 83 DE 91 86 71 03 87 BC 81 61 81 78 81 62 81 79 81 7A 81 63 DE \
         8F 8A 71 0B 8C 71 0A 8A 71 0D 84 71 0E 8F 71 0F",
    ),
    // New symbols after fields, with annotations.
    (
        VALUE,
        SYMBOLS,
        &[
            STRUCT,
            (Some(b"a"), &[NAME], Part::Int(b"1")),
            (Some(b"b"), &[VERSION], Part::Symbol(b"a")),
            (Some(b"b"), &[NAME], Part::Symbol(b"w")),
            (Some(b"c"), &[VERSION], Part::Text(b"01234567890123")),
            END,
        ],
        Ok(()),
        "E0 01 00 EA EE 90 81 83 DD 86 71 03 87 B8 81 61 81 62 81 77 81 63 DE A7 8A E4 81 84 \
         21 01 8B E4 81 85 71 0A 8B E4 81 84 71 0C 8D EE 92 81 85 8E 8E 30 31 32 33 34 35 36 \
         37 38 39 30 31 32 33",
    ),
    (
        VALUE,
        SYMBOLS,
        &[
            LIST,
            (None, &[NAME], Part::Symbol(b"u")),
            (None, &[], Part::Symbol(b"v")),
            (None, &[], Part::Symbol(b"u")),
            END,
        ],
        Ok(()),
        "E0 01 00 EA EC 81 83 D9 86 71 03 87 B4 81 75 81 76 B9 E4 81 84 71 0A 71 0B 71 0A",
    ),
    // Limits that are kept, and passed.
    (
        10,
        51,
        &THREE,
        Ok(()),
        "E0 01 00 EA EE 8E 81 83 DB 86 71 03 87 B6 81 61 81 62 81 63 D9 8A 21 01 8B 21 01 8C \
         21 01",
    ),
    (
        9,
        51,
        &THREE,
        Err(Fault::Refused(Reason::ValueLimit, 0)),
        "E0 01 00 EA",
    ),
    (
        VALUE,
        50,
        &THREE,
        Err(Fault::Refused(Reason::SymbolLimit, 103)),
        "E0 01 00 EA",
    ),
    (
        VALUE,
        16,
        &THREE,
        Err(Fault::Refused(Reason::SymbolLimit, 101)),
        "E0 01 00 EA",
    ),
];
