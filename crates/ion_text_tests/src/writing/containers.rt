//! Containers, annotations and the lines of values.

use super::{Part, Step};
use ion_value::ion_type::Kind;
use ion_value::item::Annotation;

/// Annotations of the texts `a` and `b c`.
const ANNOTATIONS: &[Annotation] = &[
    Annotation::Text {
        from: 0,
        to: 1,
        place: 0,
    },
    Annotation::Text {
        from: 1,
        to: 4,
        place: 0,
    },
];

/// An annotation of unknown text.
const UNKNOWN: &[Annotation] = &[Annotation::Id { id: 0, place: 0 }];

const LIST: Step<'static> = (None, &[], Part::Begin(Kind::List));

const SEXP: Step<'static> = (None, &[], Part::Begin(Kind::Sexp));

const STRUCT: Step<'static> = (None, &[], Part::Begin(Kind::Struct));

const END: Step<'static> = (None, &[], Part::End);

const ONE: Step<'static> = (None, &[], Part::Int(b"1"));

const A: Step<'static> = (None, &[], Part::Symbol(b"a"));

/// Items and their text.
type Row = (&'static [Step<'static>], &'static [u8]);

/// Values with annotations.
pub const ANNOTATED: &[Row] = &[
    (&[(None, ANNOTATIONS, Part::Int(b"1"))], b"a::'b c'::1\n"),
    (&[(None, UNKNOWN, Part::Unknown)], b"$0::$0\n"),
    (
        &[(None, ANNOTATIONS, Part::Begin(Kind::Sexp)), ONE, END],
        b"a::'b c'::(1)\n",
    ),
];

/// Containers and their members.
pub const CONTAINERS: &[Row] = &[
    (&[LIST, END, SEXP, END, STRUCT, END], b"[]\n()\n{}\n"),
    (&[ONE, A], b"1\na\n"),
    (
        &[
            STRUCT,
            (Some(b"a"), &[], Part::Int(b"1")),
            (Some(b"b c"), &[], Part::Begin(Kind::Struct)),
            END,
            END,
        ],
        b"{a:1,'b c':{}}\n",
    ),
    (
        &[
            STRUCT,
            (Some(b"null"), ANNOTATIONS, Part::Begin(Kind::List)),
            END,
            (Some(b"a"), UNKNOWN, Part::Text(b"")),
            END,
        ],
        b"{'null':a::'b c'::[],a:$0::\"\"}\n",
    ),
    (
        &[
            LIST, ONE, SEXP, A, LIST, END, SEXP, END, END, STRUCT, END, END, ONE,
        ],
        b"[1,(a [] ()),{}]\n1\n",
    ),
];

/// Containers that are open.
pub const OPEN: &[Row] = &[
    (&[], b""),
    (&[LIST], b"["),
    (&[ONE, LIST, ONE, SEXP, ONE], b"1\n[1,(1"),
    (&[LIST, SEXP, END, LIST, END], b"[(),[]"),
    (
        &[STRUCT, (Some(b"a"), &[], Part::Begin(Kind::Sexp))],
        b"{a:(",
    ),
];

/// Containers and their members, each member on a line of its own.
pub const PRETTY: &[Row] = &[
    (
        &[ONE, LIST, END, SEXP, END, STRUCT, END, A],
        b"1\n[]\n()\n{}\na\n",
    ),
    (
        &[
            STRUCT,
            (Some(b"name"), &[], Part::Text(b"probe 7")),
            (Some(b"sizes"), &[], Part::Begin(Kind::List)),
            ONE,
            (None, ANNOTATIONS, Part::Int(b"2")),
            END,
            (Some(b"none"), UNKNOWN, Part::Begin(Kind::List)),
            END,
            (Some(b"sum"), &[], Part::Begin(Kind::Sexp)),
            (None, &[], Part::Symbol(b"+")),
            ONE,
            END,
            END,
        ],
        b"{\n  name: \"probe 7\",\n  sizes: [\n    1,\n    a::'b c'::2\n  ],\n  none: $0::[],\n  sum: (\n    '+'\n    1\n  )\n}\n",
    ),
    (&[SEXP, LIST, STRUCT, END, SEXP], b"(\n  [\n    {},\n    ("),
];
