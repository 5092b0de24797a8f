//! Containers that end one after the other round long bodies, and what comes after them.

use crate::hex::{MARKER, add, add_digits, octets};
use crate::limits::LIMITS;
use crate::same::same;
use crate::written::{Part, Step, put};
use ion_meter::fault::{Fault, Reason};
use ion_meter::limits::Limits;
use ion_value::ion_type::Kind;
use ion_value::item::Annotation;
use std::alloc::Global;
use std::process::Abort;

// A body that is long, and one that is not.
const LONG: [u8; 5_000] = [b'x'; 5_000];

const SHORT: [u8; 3_000] = [b'x'; 3_000];

// The annotation `name`.
const NAME: &[Annotation] = &[Annotation::Text {
    from: 0,
    to: 4,
    place: 0,
}];

const LIST: Step<'static> = (None, &[], Part::Begin(Kind::List));

const NAMED: Step<'static> = (None, NAME, Part::Begin(Kind::List));

const SEXP: Step<'static> = (None, &[], Part::Begin(Kind::Sexp));

const STRUCT: Step<'static> = (None, &[], Part::Begin(Kind::Struct));

const NAME_LIST: Step<'static> = (Some(b"name"), &[], Part::Begin(Kind::List));

const NAME_STRUCT: Step<'static> = (Some(b"name"), &[], Part::Begin(Kind::Struct));

const NAME_TEXT: Step<'static> = (Some(b"name"), &[], Part::Text(&LONG));

const NAME_TRUE: Step<'static> = (Some(b"name"), &[], Part::Bool(true));

const END: Step<'static> = (None, &[], Part::End);

const TEXT: Step<'static> = (None, &[], Part::Text(&LONG));

const FEW: Step<'static> = (None, &[], Part::Text(&SHORT));

const TRUE: Step<'static> = (None, &[], Part::Bool(true));

const NAMED_TRUE: Step<'static> = (None, NAME, Part::Bool(true));

// The length of the first value, items, and the octets after a version marker, among which the two
// bodies stand by their names.
type Row = (u64, &'static [Step<'static>], &'static str);

const ROWS: &[Row] = &[
    // The end of the value comes after them.
    (
        5_012,
        &[LIST, LIST, LIST, TEXT, END, END, END],
        "BE 27 91 BE 27 8E BE 27 8B 8E 27 88 LONG",
    ),
    // A member does, and an empty list.
    (
        5_014,
        &[LIST, SEXP, LIST, TEXT, END, END, TRUE, LIST, END, END],
        "BE 27 93 CE 27 8E BE 27 8B 8E 27 88 LONG 11 B0",
    ),
    // A member does at each level.
    (
        5_014,
        &[LIST, LIST, LIST, TEXT, END, TRUE, END, TRUE, END, TRUE],
        "BE 27 93 BE 27 8F BE 27 8B 8E 27 88 LONG 11 11 11",
    ),
    // A field does.
    (
        5_015,
        &[
            STRUCT,
            NAME_STRUCT,
            NAME_TEXT,
            END,
            NAME_LIST,
            END,
            NAME_TRUE,
            END,
        ],
        "DE 27 94 84 DE 27 8C 84 8E 27 88 LONG 84 B0 84 11",
    ),
    // They have wrappers, the outermost too.
    (
        5_019,
        &[NAMED, NAMED, TEXT, END, END, NAMED_TRUE, LIST, END],
        "EE 27 98 81 84 BE 27 93 EE 27 90 81 84 BE 27 8B 8E 27 88 LONG E3 81 84 11 B0",
    ),
    // A member with a wrapper comes after two that have one.
    (
        5_026,
        &[LIST, NAMED, NAMED, TEXT, END, END, NAMED_TRUE, END],
        "BE 27 9F EE 27 98 81 84 BE 27 93 EE 27 90 81 84 BE 27 8B 8E 27 88 LONG E3 81 84 11",
    ),
    // The inner ones are short.
    (
        6_015,
        &[LIST, LIST, LIST, FEW, END, FEW, END, END, TRUE],
        "BE 2E FC BE 2E F9 BE 17 BB 8E 17 B8 SHORT 8E 17 B8 SHORT 11",
    ),
    // Others come after them.
    (
        13_030,
        &[
            LIST, LIST, LIST, FEW, END, TEXT, END, NAMED, LIST, TEXT, END, END, TRUE, END,
        ],
        "BE 65 E3 BE 3E C9 BE 17 BB 8E 17 B8 SHORT 8E 27 88 LONG EE 27 93 81 84 BE 27 8E BE 27 8B \
         8E 27 88 LONG 11",
    ),
    // Long and short ones stand beside each other.
    (
        16_031,
        &[
            LIST, LIST, TEXT, END, LIST, TRUE, END, LIST, TEXT, END, LIST, END, LIST, LIST, FEW,
            END, FEW, END, TRUE, END,
        ],
        "BE 7D 9C BE 27 8B 8E 27 88 LONG B1 11 BE 27 8B 8E 27 88 LONG B0 BE 2E F9 BE 17 BB 8E 17 B8 SHORT \
         8E 17 B8 SHORT 11",
    ),
    // Those with wrappers do, and a member comes after each.
    (
        15_054,
        &[
            LIST, NAMED, NAMED, TEXT, END, TRUE, END, NAMED_TRUE, NAMED, TEXT, END, LIST, NAMED,
            TRUE, END, LIST, TEXT, END, TRUE, END, TRUE, END,
        ],
        "BE 75 CB EE 27 99 81 84 BE 27 94 EE 27 90 81 84 BE 27 8B 8E 27 88 LONG 11 E3 81 84 11 EE 27 90 81 84 \
         BE 27 8B 8E 27 88 LONG BE 27 94 E4 81 84 B1 11 BE 27 8B 8E 27 88 LONG 11 11",
    ),
    // More are long than headers may be late at a depth of 4, inside of two others.
    (
        35_056,
        &[
            LIST, LIST, LIST, LIST, TEXT, END, LIST, TEXT, END, LIST, TEXT, END, LIST, TEXT, END,
            TRUE, END, LIST, TEXT, END, LIST, TEXT, END, LIST, TEXT, END, END, TRUE, END,
        ],
        "BE 02 11 EC BE 02 11 E7 BE 01 1C B9 BE 27 8B 8E 27 88 LONG BE 27 8B 8E 27 88 LONG BE 27 8B 8E 27 88 LONG \
         BE 27 8B 8E 27 88 LONG 11 BE 27 8B 8E 27 88 LONG BE 27 8B 8E 27 88 LONG BE 27 8B 8E 27 88 LONG 11",
    ),
];

// The octets of a row.
fn row_octets(rt: &impl Abort, alloc: Global, text: &str) -> Vec<u8> {
    let mut octets = octets(rt, alloc, MARKER, "");
    for word in text.split_whitespace() {
        match word {
            "LONG" => add(rt, &mut octets, &LONG),
            "SHORT" => add(rt, &mut octets, &SHORT),
            digits => add_digits(rt, &mut octets, digits),
        }
    }
    octets
}

// Asserts what is written of a row at a depth, where a value may have the length of the first, and that
// one octet less is too few.
fn expect_row(rt: &impl Abort, alloc: Global, row: &Row, depth: u32) {
    let (value, steps, text) = *row;
    let limits = Limits {
        value,
        depth,
        ..LIMITS
    };
    let written = put(rt, alloc, limits, steps, Ok(()), Vec::new(alloc));
    let want = row_octets(rt, alloc, text);
    same(rt, written.as_slice(), want.as_slice());
    let limits = Limits {
        value: value.saturating_sub(1),
        depth,
        ..LIMITS
    };
    let over = Err(Fault::Refused(Reason::ValueLimit, 0));
    let written = put(rt, alloc, limits, steps, over, Vec::new(alloc));
    same(rt, written.as_slice(), MARKER);
}

#[test]
fn ends_in_a_row_are_written(rt: HostRuntime) {
    for row in ROWS {
        expect_row(&rt, rt.alloc(), row, 64);
        expect_row(&rt, rt.alloc(), row, 4);
    }
}
