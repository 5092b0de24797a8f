//! Items, and the octets that they are written as.

use crate::hex::{MARKER, add, octets};
use crate::limits::LIMITS;
use crate::new_texts::NEW_TEXTS;
use crate::same::{holds, same};
use crate::written::{Part, Step, put, put_plainly};
use crate::written_again::FailingOnce;
use ion_meter::fault::{Fault, Reason};
use ion_meter::limits::Limits;
use ion_value::ion_type::{IonType, Kind};
use ion_value::item::Annotation;
use std::alloc::Global;
use std::process::Abort;

/// The greatest length of a value where nothing else is said.
pub const VALUE: u64 = 16_777_216;

/// The most that a symbol table costs there.
pub const SYMBOLS: u64 = 1_048_576;

/// An annotation of the text `name`.
pub const NAME: Annotation = Annotation::Text {
    from: 0,
    to: 4,
    place: 0,
};

/// An annotation of the text `version`.
pub const VERSION: Annotation = Annotation::Text {
    from: 4,
    to: 11,
    place: 0,
};

/// The annotations `a`, one of unknown text, `name` and `a` again.
const FOUR: &[Annotation] = &[
    Annotation::Text {
        from: 1,
        to: 2,
        place: 3,
    },
    Annotation::Id { id: 12, place: 4 },
    Annotation::Text {
        from: 0,
        to: 4,
        place: 5,
    },
    Annotation::Text {
        from: 1,
        to: 2,
        place: 6,
    },
];

/// A list begins.
pub const LIST: Step<'static> = (None, &[], Part::Begin(Kind::List));

const SEXP: Step<'static> = (None, &[], Part::Begin(Kind::Sexp));

/// A struct begins.
pub const STRUCT: Step<'static> = (None, &[], Part::Begin(Kind::Struct));

/// A container ends.
pub const END: Step<'static> = (None, &[], Part::End);

const A: Step<'static> = (None, &[], Part::Symbol(b"a"));

const B: Step<'static> = (None, &[], Part::Symbol(b"b"));

const TRUE: Step<'static> = (None, &[], Part::Bool(true));

const ONE: Step<'static> = (None, &[], Part::Int(b"1"));

const TWO: Step<'static> = (None, &[], Part::Int(b"2"));

const FIVE: Step<'static> = (None, &[], Part::Int(b"5"));

const LIST_OF_NAME: Step<'static> = (Some(b"name"), &[], Part::Begin(Kind::List));

const LETTERS: Step<'static> = (None, &[], Part::Text(&[b'a'; 64]));

// A symbol as a field with four annotations.
const Z: Step<'static> = (Some(b"f"), FOUR, Part::Symbol(b"z"));

/// More bytes than a window has.
const LONG: [u8; 5_000] = [b'a'; 5_000];

/// The limits on a value and on symbol tables, items, the answer, and what is written.
pub type Row = (
    u64,
    u64,
    &'static [Step<'static>],
    Result<(), Fault>,
    &'static str,
);

/// Scalars.
const SCALARS: &[Row] = &[
    (
        VALUE,
        SYMBOLS,
        &[(None, &[], Part::Null(IonType::Int))],
        Ok(()),
        "E0 01 00 EA 2F",
    ),
    (
        VALUE,
        SYMBOLS,
        &[(None, &[], Part::Int(b"5"))],
        Ok(()),
        "E0 01 00 EA 21 05",
    ),
    (
        VALUE,
        SYMBOLS,
        &[(None, &[], Part::Int(b"-0"))],
        Ok(()),
        "E0 01 00 EA 20",
    ),
    (
        VALUE,
        SYMBOLS,
        &[(
            None,
            &[],
            Part::Int(b"340282366920938463463374607431768211455"),
        )],
        Ok(()),
        "E0 01 00 EA 2E 90 FF FF FF FF FF FF FF FF FF FF FF FF FF FF FF FF",
    ),
    (
        VALUE,
        SYMBOLS,
        &[(None, &[], Part::Float(&[0; 8]))],
        Ok(()),
        "E0 01 00 EA 40",
    ),
    (
        VALUE,
        SYMBOLS,
        &[(None, &[], Part::Float(&[0x3F, 0xF8, 0, 0, 0, 0, 0, 0]))],
        Ok(()),
        "E0 01 00 EA 44 3F C0 00 00",
    ),
    (
        VALUE,
        SYMBOLS,
        &[(
            None,
            &[],
            Part::Float(&[0x3F, 0xB9, 0x99, 0x99, 0x99, 0x99, 0x99, 0x9A]),
        )],
        Ok(()),
        "E0 01 00 EA 48 3F B9 99 99 99 99 99 9A",
    ),
    (
        VALUE,
        SYMBOLS,
        &[(None, &[], Part::Float(&[0xFF, 0xC0, 0, 1]))],
        Ok(()),
        "E0 01 00 EA 44 7F C0 00 00",
    ),
    (
        VALUE,
        SYMBOLS,
        &[(None, &[], Part::Decimal(b"-0."))],
        Ok(()),
        "E0 01 00 EA 52 80 80",
    ),
    (
        VALUE,
        SYMBOLS,
        &[(None, &[], Part::Timestamp(b"2011-02-20T11:30:59.100-08:00"))],
        Ok(()),
        "E0 01 00 EA 6B 43 E0 0F DB 82 94 93 9E BB C3 64",
    ),
    (
        VALUE,
        SYMBOLS,
        &[(None, &[], Part::Symbol(b"name"))],
        Ok(()),
        "E0 01 00 EA 71 04",
    ),
    (
        VALUE,
        SYMBOLS,
        &[(None, &[], Part::Unknown(0))],
        Ok(()),
        "E0 01 00 EA 70",
    ),
    (
        VALUE,
        SYMBOLS,
        &[(None, &[], Part::Text(b"\xC3\xA9"))],
        Ok(()),
        "E0 01 00 EA 82 C3 A9",
    ),
    // Nulls of each type, and truths.
    (
        VALUE,
        SYMBOLS,
        &[
            (None, &[], Part::Null(IonType::Null)),
            (None, &[], Part::Null(IonType::Bool)),
            (None, &[], Part::Null(IonType::Int)),
            (None, &[], Part::Null(IonType::Float)),
            (None, &[], Part::Null(IonType::Decimal)),
            (None, &[], Part::Null(IonType::Timestamp)),
            (None, &[], Part::Null(IonType::Symbol)),
            (None, &[], Part::Null(IonType::String)),
            (None, &[], Part::Null(IonType::Clob)),
            (None, &[], Part::Null(IonType::Blob)),
            (None, &[], Part::Null(IonType::List)),
            (None, &[], Part::Null(IonType::Sexp)),
            (None, &[], Part::Null(IonType::Struct)),
            (None, &[], Part::Bool(false)),
            TRUE,
        ],
        Ok(()),
        "E0 01 00 EA 0F 1F 2F 4F 5F 6F 7F 8F 9F AF BF CF DF 10 11",
    ),
    // Ints, decimals and timestamps.
    (
        VALUE,
        SYMBOLS,
        &[
            (None, &[], Part::Int(b"0")),
            (None, &[], Part::Int(b"1")),
            (None, &[], Part::Int(b"-7")),
            (None, &[], Part::Int(b"256")),
        ],
        Ok(()),
        "E0 01 00 EA 20 21 01 31 07 22 01 00",
    ),
    (
        VALUE,
        SYMBOLS,
        &[
            (None, &[], Part::Decimal(b"0.")),
            (None, &[], Part::Decimal(b"-0.")),
            (None, &[], Part::Decimal(b"0.00")),
            (None, &[], Part::Decimal(b"1.5")),
            (None, &[], Part::Decimal(b"-1.5")),
            (None, &[], Part::Decimal(b"128.")),
        ],
        Ok(()),
        "E0 01 00 EA 50 52 80 80 51 C2 52 C1 0F 52 C1 8F 53 80 00 80",
    ),
    (
        VALUE,
        SYMBOLS,
        &[
            (None, &[], Part::Timestamp(b"2007T")),
            (None, &[], Part::Timestamp(b"2007-01-02")),
            (None, &[], Part::Timestamp(b"2007-01-02T01:30+01:00")),
            (None, &[], Part::Timestamp(b"2007-01-02T03:04:05.010-00:00")),
        ],
        Ok(()),
        "E0 01 00 EA 63 C0 0F D7 65 C0 0F D7 81 82 67 BC 0F D7 81 82 80 9E 6A C0 0F D7 81 82 \
         83 84 85 C3 0A",
    ),
    // What is lent.
    (
        VALUE,
        SYMBOLS,
        &[
            (None, &[], Part::Text(b"")),
            (None, &[], Part::Text(b"abc")),
            (None, &[], Part::Text(b"0123456789012")),
            (None, &[], Part::Text(b"01234567890123")),
            (None, &[], Part::Clob(b"\x00\xFF")),
            (None, &[], Part::Blob(b"\x00")),
        ],
        Ok(()),
        "E0 01 00 EA 80 83 61 62 63 8D 30 31 32 33 34 35 36 37 38 39 30 31 32 8E 8E 30 31 32 \
         33 34 35 36 37 38 39 30 31 32 33 92 00 FF A1 00",
    ),
];

/// Symbols, fields and annotations.
const SYMBOLIC: &[Row] = &[
    // Texts are declared before the value that needs them, in their order and each once.
    (
        VALUE,
        SYMBOLS,
        &[
            (None, &[], Part::Null(IonType::Int)),
            FIVE,
            (None, &[], Part::Int(b"-0")),
            (None, &[], Part::Symbol(b"a b")),
            (None, &[], Part::Symbol(b"a b")),
        ],
        Ok(()),
        "E0 01 00 EA 2F 21 05 20 EC 81 83 D9 86 71 03 87 B4 83 61 20 62 71 0A 71 0A",
    ),
    (VALUE, SYMBOLS, &[LIST, END], Ok(()), "E0 01 00 EA B0"),
    (
        VALUE,
        SYMBOLS,
        &[(None, &[], Part::Symbol(b"x"))],
        Ok(()),
        "E0 01 00 EA EA 81 83 D7 86 71 03 87 B2 81 78 71 0A",
    ),
    (
        VALUE,
        SYMBOLS,
        &[
            LIST,
            (None, &[], Part::Symbol(b"c")),
            (None, &[], Part::Symbol(b"a")),
            (None, &[], Part::Symbol(b"")),
            (None, &[], Part::Symbol(b"c")),
            (None, &[], Part::Symbol(b"b")),
            END,
        ],
        Ok(()),
        "E0 01 00 EA EE 8F 81 83 DC 86 71 03 87 B7 81 63 81 61 80 81 62 BA 71 0A 71 0B 71 0C \
         71 0A 71 0D",
    ),
    (
        VALUE,
        SYMBOLS,
        &[(None, &[], Part::Symbol(b"01234567890123"))],
        Ok(()),
        "E0 01 00 EA EE 9A 81 83 DE 96 86 71 03 87 BE 90 8E 8E 30 31 32 33 34 35 36 37 38 39 \
         30 31 32 33 71 0A",
    ),
    // A field and annotations, which get their ids before the value.
    (
        VALUE,
        SYMBOLS,
        &[STRUCT, (Some(b"f"), FOUR, Part::Symbol(b"f")), END],
        Ok(()),
        "E0 01 00 EA EC 81 83 D9 86 71 03 87 B4 81 66 81 61 D9 8A E7 84 8B 80 84 8B 71 0A",
    ),
    (
        VALUE,
        SYMBOLS,
        &[STRUCT, Z, END],
        Ok(()),
        "E0 01 00 EA EE 8E 81 83 DB 86 71 03 87 B6 81 66 81 61 81 7A D9 8A E7 84 8B 80 84 8B \
         71 0C",
    ),
    (
        VALUE,
        SYMBOLS,
        &[STRUCT, (Some(b"f"), FOUR, Part::Symbol(b"imports")), END],
        Ok(()),
        "E0 01 00 EA EC 81 83 D9 86 71 03 87 B4 81 66 81 61 D9 8A E7 84 8B 80 84 8B 71 06",
    ),
    (
        VALUE,
        SYMBOLS,
        &[STRUCT, (Some(b"f"), FOUR, Part::Unknown(12)), END],
        Ok(()),
        "E0 01 00 EA EC 81 83 D9 86 71 03 87 B4 81 66 81 61 D8 8A E6 84 8B 80 84 8B 70",
    ),
    (
        VALUE,
        SYMBOLS,
        &[STRUCT, (Some(b"f"), FOUR, Part::Bool(true)), END],
        Ok(()),
        "E0 01 00 EA EC 81 83 D9 86 71 03 87 B4 81 66 81 61 D8 8A E6 84 8B 80 84 8B 11",
    ),
    // They fit, or the value is too long, wherever it is cut.
    (
        10,
        51,
        &[STRUCT, Z, END],
        Ok(()),
        "E0 01 00 EA EE 8E 81 83 DB 86 71 03 87 B6 81 66 81 61 81 7A D9 8A E7 84 8B 80 84 8B \
         71 0C",
    ),
    (
        9,
        51,
        &[STRUCT, Z, END],
        Err(Fault::Refused(Reason::ValueLimit, 0)),
        "E0 01 00 EA",
    ),
    (
        5,
        51,
        &[STRUCT, Z, END],
        Err(Fault::Refused(Reason::ValueLimit, 0)),
        "E0 01 00 EA",
    ),
    (
        4,
        51,
        &[STRUCT, Z, END],
        Err(Fault::Refused(Reason::ValueLimit, 0)),
        "E0 01 00 EA",
    ),
    (
        3,
        51,
        &[STRUCT, Z, END],
        Err(Fault::Refused(Reason::ValueLimit, 0)),
        "E0 01 00 EA",
    ),
    (
        2,
        51,
        &[STRUCT, Z, END],
        Err(Fault::Refused(Reason::ValueLimit, 0)),
        "E0 01 00 EA",
    ),
    (
        1,
        51,
        &[STRUCT, Z, END],
        Err(Fault::Refused(Reason::ValueLimit, 0)),
        "E0 01 00 EA",
    ),
    // The first text that costs too much, even where the value is too long.
    (
        2,
        16,
        &[STRUCT, Z, END],
        Err(Fault::Refused(Reason::SymbolLimit, 101)),
        "E0 01 00 EA",
    ),
    (
        2,
        17,
        &[STRUCT, Z, END],
        Err(Fault::Refused(Reason::SymbolLimit, 3)),
        "E0 01 00 EA",
    ),
    (
        2,
        33,
        &[STRUCT, Z, END],
        Err(Fault::Refused(Reason::SymbolLimit, 3)),
        "E0 01 00 EA",
    ),
    (
        2,
        34,
        &[STRUCT, Z, END],
        Err(Fault::Refused(Reason::SymbolLimit, 1)),
        "E0 01 00 EA",
    ),
    (
        2,
        50,
        &[STRUCT, Z, END],
        Err(Fault::Refused(Reason::SymbolLimit, 1)),
        "E0 01 00 EA",
    ),
];

/// Containers, annotations and limits on a value.
const CONTAINERS: &[Row] = &[
    (
        VALUE,
        SYMBOLS,
        &[STRUCT, LIST_OF_NAME, ONE, TWO, END],
        Ok(()),
        "E0 01 00 EA",
    ),
    (
        VALUE,
        SYMBOLS,
        &[STRUCT, LIST_OF_NAME, ONE, TWO, END, END],
        Ok(()),
        "E0 01 00 EA D6 84 B4 21 01 21 02",
    ),
    (
        VALUE,
        SYMBOLS,
        &[LIST, LIST, END, SEXP, END, END],
        Ok(()),
        "E0 01 00 EA B2 B0 C0",
    ),
    // Annotations.
    (
        VALUE,
        SYMBOLS,
        &[
            (None, &[NAME], Part::Int(b"5")),
            (None, &[NAME, VERSION], Part::Int(b"5")),
        ],
        Ok(()),
        "E0 01 00 EA E4 81 84 21 05 E5 82 84 85 21 05",
    ),
    (
        VALUE,
        SYMBOLS,
        &[
            STRUCT,
            (Some(b"name"), &[NAME], Part::Begin(Kind::List)),
            ONE,
            END,
            (Some(b"version"), &[VERSION], Part::Int(b"1")),
            END,
        ],
        Ok(()),
        "E0 01 00 EA DD 84 E5 81 84 B2 21 01 85 E4 81 85 21 01",
    ),
    // Enough annotations for a longer header of the wrapper.
    (
        VALUE,
        SYMBOLS,
        &[LIST, (None, &[NAME; 13], Part::Begin(Kind::List)), END, END],
        Ok(()),
        "E0 01 00 EA BE 91 EE 8F 8D 84 84 84 84 84 84 84 84 84 84 84 84 84 B0",
    ),
    // Headers lengthen as members come.
    (
        16,
        SYMBOLS,
        &[
            LIST, LIST, TRUE, TRUE, TRUE, TRUE, TRUE, TRUE, TRUE, TRUE, TRUE, TRUE, TRUE, TRUE,
            TRUE, END, END,
        ],
        Ok(()),
        "E0 01 00 EA BE 8E BD 11 11 11 11 11 11 11 11 11 11 11 11 11",
    ),
    (
        15,
        SYMBOLS,
        &[
            LIST, LIST, TRUE, TRUE, TRUE, TRUE, TRUE, TRUE, TRUE, TRUE, TRUE, TRUE, TRUE, TRUE,
            TRUE, END, END,
        ],
        Err(Fault::Refused(Reason::ValueLimit, 0)),
        "E0 01 00 EA",
    ),
    // A value that is too long, or not.
    (
        16,
        SYMBOLS,
        &[
            (None, &[], Part::Null(IonType::Null)),
            (None, &[], Part::Text(b"abcdefghijklmn")),
        ],
        Ok(()),
        "E0 01 00 EA 0F 8E 8E 61 62 63 64 65 66 67 68 69 6A 6B 6C 6D 6E",
    ),
    (
        15,
        SYMBOLS,
        &[
            (None, &[], Part::Null(IonType::Null)),
            (None, &[], Part::Text(b"abcdefghijklmn")),
        ],
        Err(Fault::Refused(Reason::ValueLimit, 1)),
        "E0 01 00 EA 0F",
    ),
    // What is open counts as if it were closed here.
    (
        5,
        SYMBOLS,
        &[LIST, LIST, LIST, (None, &[], Part::Text(b"x"))],
        Ok(()),
        "E0 01 00 EA",
    ),
    (
        4,
        SYMBOLS,
        &[LIST, LIST, LIST, (None, &[], Part::Text(b"x"))],
        Err(Fault::Refused(Reason::ValueLimit, 0)),
        "E0 01 00 EA",
    ),
    (
        2,
        SYMBOLS,
        &[LIST, LIST, LIST],
        Err(Fault::Refused(Reason::ValueLimit, 0)),
        "E0 01 00 EA",
    ),
    // The field and the annotations alone pass the limit.
    (
        2,
        SYMBOLS,
        &[(None, &[NAME, NAME, NAME], Part::Int(b"5"))],
        Err(Fault::Refused(Reason::ValueLimit, 0)),
        "E0 01 00 EA",
    ),
];

/// The table begins anew where its texts cost too much.
const ANEW: &[Row] = &[
    (
        VALUE,
        17,
        &[A, B],
        Ok(()),
        "E0 01 00 EA EA 81 83 D7 86 71 03 87 B2 81 61 71 0A E0 01 00 EA EA 81 83 D7 86 71 03 \
         87 B2 81 62 71 0A",
    ),
    // A value without symbols may come after the marker too, and none stands after the last
    // value.
    (
        VALUE,
        17,
        &[A, TRUE, LIST],
        Ok(()),
        "E0 01 00 EA EA 81 83 D7 86 71 03 87 B2 81 61 71 0A E0 01 00 EA 11",
    ),
    (
        VALUE,
        33,
        &[LIST, A, B, END],
        Err(Fault::Refused(Reason::SymbolLimit, 2)),
        "E0 01 00 EA",
    ),
    (
        VALUE,
        34,
        &[LIST, A, B, END],
        Ok(()),
        "E0 01 00 EA EC 81 83 D9 86 71 03 87 B4 81 61 81 62 B4 71 0A 71 0B",
    ),
    (
        VALUE,
        40,
        &[A, B, A],
        Ok(()),
        "E0 01 00 EA EA 81 83 D7 86 71 03 87 B2 81 61 71 0A EA 81 83 D7 86 71 03 87 B2 81 62 \
         71 0B E0 01 00 EA EA 81 83 D7 86 71 03 87 B2 81 61 71 0A",
    ),
];

// Asserts what is written of a row, item by item and where plain items are put at once.
fn expect_row(rt: &impl Abort, alloc: Global, row: &Row) {
    let (value, symbols, steps, want, text) = *row;
    let limits = Limits {
        value,
        symbols,
        ..LIMITS
    };
    let written = put(rt, alloc, limits, steps, want, Vec::new(alloc));
    let plainly = put_plainly(rt, alloc, limits, steps, want, Vec::new(alloc));
    let text = octets(rt, alloc, b"", text);
    same(rt, written.as_slice(), text.as_slice());
    same(rt, plainly.as_slice(), text.as_slice());
}

#[test]
fn items_are_written(rt: HostRuntime) {
    for rows in [SCALARS, SYMBOLIC, CONTAINERS, NEW_TEXTS, ANEW] {
        for row in rows {
            expect_row(&rt, rt.alloc(), row);
        }
    }
}

// What is written of a text that is longer than a window.
const LONG_TEXT: [Step<'static>; 1] = [(None, &[], Part::Symbol(&LONG))];

fn expect_long_text(rt: &impl Abort, alloc: Global) {
    let written = put(rt, alloc, LIMITS, &LONG_TEXT, Ok(()), Vec::new(alloc));
    let front = "EE 27 97 81 83 DE 27 92 86 71 03 87 BE 27 8B 8E 27 88";
    let mut want = octets(rt, alloc, MARKER, front);
    add(rt, &mut want, &LONG);
    add(rt, &mut want, b"\x71\x0A");
    same(rt, written.as_slice(), want.as_slice());
}

// A text that is longer than a window, and a device that fails.
#[test]
fn a_long_text_is_declared(rt: HostRuntime) {
    expect_long_text(&rt, rt.alloc());
    let device = FailingOnce {
        taken: Vec::new(rt.alloc()),
        room: 0,
    };
    let fault = Err(Fault::WriteFault);
    let device = put(&rt, rt.alloc(), LIMITS, &LONG_TEXT, fault, device);
    assert!(rt; device.taken.is_empty());
}

// Adds items.
fn add_steps(rt: &impl Abort, steps: &mut Vec<Step<'static>>, more: &[Step<'static>]) {
    holds(rt, steps.extend_from_slice(more).is_ok());
}

// Asserts how the octets end that are written of items, in both ways.
fn expect_end(rt: &impl Abort, alloc: Global, steps: &[Step<'_>], end: &[u8]) {
    let written = put(rt, alloc, LIMITS, steps, Ok(()), Vec::new(alloc));
    let plainly = put_plainly(rt, alloc, LIMITS, steps, Ok(()), Vec::new(alloc));
    same(rt, written.as_slice(), plainly.as_slice());
    holds(rt, written.as_slice().ends_with(end));
}

// Texts of the ids from 10 to 256, of symbols and of fields.
#[test]
fn an_id_may_have_two_octets(rt: HostRuntime) {
    let mut symbols = Vec::new(rt.alloc());
    let mut fields = Vec::new(rt.alloc());
    add_steps(&rt, &mut symbols, &[LIST]);
    add_steps(&rt, &mut fields, &[STRUCT]);
    for length in 0..247usize {
        let text = &LONG[..length];
        add_steps(&rt, &mut symbols, &[(None, &[], Part::Symbol(text))]);
        add_steps(&rt, &mut fields, &[(Some(text), &[], Part::Int(b"1"))]);
    }
    add_steps(&rt, &mut symbols, &[END]);
    add_steps(&rt, &mut fields, &[END]);
    let last = b"\x71\xFE\x71\xFF\x72\x01\x00";
    expect_end(&rt, rt.alloc(), symbols.as_slice(), last);
    let last = b"\x01\xFF\x21\x01\x02\x80\x21\x01";
    expect_end(&rt, rt.alloc(), fields.as_slice(), last);
}

#[test]
fn a_long_value_is_held_once(rt: HostRuntime) {
    let mut steps = Vec::new(rt.alloc());
    add_steps(&rt, &mut steps, &[LIST; 20]);
    add_steps(&rt, &mut steps, &[LETTERS; 1_400]);
    add_steps(&rt, &mut steps, &[END; 20]);
    let limits = Limits {
        depth: 32,
        scalar: 64,
        symbols: 64,
        value: 100_000,
        ..LIMITS
    };
    let device = Vec::new(rt.alloc());
    let written = put(&rt, rt.alloc(), limits, steps.as_slice(), Ok(()), device);
    same(&rt, written.len(), 92_484);
}

const OVER: Result<(), Fault> = Err(Fault::Refused(Reason::ValueLimit, 0));

#[test]
fn many_open_containers_are_counted_on(rt: HostRuntime) {
    // The length of so many lists, each in the one before, and less.
    for (value, want) in [(26_425, Ok(())), (26_424, OVER)] {
        let limits = Limits {
            depth: 8_000,
            value,
            ..LIMITS
        };
        let device = Vec::new(rt.alloc());
        let written = put(&rt, rt.alloc(), limits, &[LIST; 8_000], want, device);
        same(&rt, (value, written.len()), (value, 4));
    }
}
