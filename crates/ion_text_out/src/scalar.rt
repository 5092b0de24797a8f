//! Symbols and scalars.
ghost use Rattle.std.specs.Prelude.{◌≡◌, ◌++◌, None, codes};
ghost use Rattle.base64.specs.Engines.{standard};
ghost use Rattle.base64.specs.GeneralPurpose.{encode_of};
ghost use Rattle.ion_value.specs.Name.{bool_text, null_text};
ghost use Rattle.ion_value.specs.Value.{user_symbol, map_head};
ghost use Rattle.ion_value.specs.Items.{symbol_of, raw_head};
ghost use Rattle.ion_text_out.specs.Escape.{between_quotes};
ghost use Rattle.ion_text_out.specs.Text.{symbol_text};
ghost use Rattle.ion_meter.specs.Sinks.{IsPut};
ghost use Rattle.ion_text_out.specs.Writing.{body_text};
ghost use Rattle.ion_value.specs.Value.{user_symbol_at};
ghost use Rattle.ion_value.specs.Standing.{HeadInRange};

use crate::between::opener;
use crate::blob::put_base64;
use crate::put::{put, put_mark};
use crate::quote::put_quoted;
use ion_float::text::float_to_text;
use ion_meter::device::Output;
use ion_meter::fault::Fault;
use ion_meter::sink::Sink;
use ion_value::decimal::decimal_to_text;
use ion_value::int::int_to_text;
use ion_value::ion_type::IonType;
use ion_value::item::{Head, Sym};
use ion_value::name::is_plain;
use ion_value::timestamp::timestamp_to_text;
use std::alloc::Allocator;

/// The null of a type.
pub fn null(of: IonType) -> &'static [u8]
    ensures { result.now ≡ null_text of }
{
    match of {
        IonType::Null => b"null",
        IonType::Bool => b"null.bool",
        IonType::Int => b"null.int",
        IonType::Float => b"null.float",
        IonType::Decimal => b"null.decimal",
        IonType::Timestamp => b"null.timestamp",
        IonType::Symbol => b"null.symbol",
        IonType::String => b"null.string",
        IonType::Clob => b"null.clob",
        IonType::Blob => b"null.blob",
        IonType::List => b"null.list",
        IonType::Sexp => b"null.sexp",
        IonType::Struct => b"null.struct",
    }
}

/// A truth value.
#[inline]
pub fn bool_text(truth: bool) -> &'static [u8]
    ensures { result.now ≡ bool_text truth }
{
    if truth { b"true" } else { b"false" }
}

/// Puts a symbol: its text, between quotes where it could be taken for something else, or `$0`
/// where that is unknown.
#[inline(always)]
pub fn put_symbol<O: Output, A: Allocator + Copy>(
    sink: &mut Sink<O, A>,
    symbol: Sym<'_>,
) -> Result<(), Fault>
    requires well { sink.old.fault ≡ None }
    ensures { IsPut O.Output sink.old sink.new result
        (symbol_text (user_symbol (symbol_of symbol.entry))) }
{
    match symbol {
        Sym::Id(_) => put(sink, b"$0"),
        Sym::Text(text) if is_plain(text) => put(sink, text),
        Sym::Text(text) => put_quoted(sink, b'\'', 256, text),
    }
}

/// Puts a clob.
fn put_clob<O: Output, A: Allocator + Copy>(
    sink: &mut Sink<O, A>,
    bytes: &[u8],
) -> Result<(), Fault>
    requires well { sink.old.fault ≡ None }
    ensures { IsPut O.Output sink.old sink.new result
        (codes "{{" ++ (between_quotes 34 128 bytes.now ++ codes "}}")) }
{
    if let Err(fault) = put(sink, b"{{") {
        return Err(fault);
    }
    if let Err(fault) = put_quoted(sink, b'"', 128, bytes) {
        return Err(fault);
    }
    put(sink, b"}}")
}

/// Puts a blob.
fn put_blob<O: Output, A: Allocator + Copy>(
    sink: &mut Sink<O, A>,
    bytes: &[u8],
) -> Result<(), Fault>
    requires well { sink.old.fault ≡ None }
    ensures { IsPut O.Output sink.old sink.new result
        (codes "{{" ++ (encode_of standard bytes.now ++ codes "}}")) }
{
    if let Err(fault) = put(sink, b"{{") {
        return Err(fault);
    }
    if let Err(fault) = put_base64(sink, bytes) {
        return Err(fault);
    }
    put(sink, b"}}")
}

/// Puts a scalar, or the bracket that opens a container.
#[inline(always)]
pub fn put_body<O: Output, A: Allocator + Copy>(
    sink: &mut Sink<O, A>,
    head: &Head<'_>,
) -> Result<(), Fault>
    requires well { sink.old.fault ≡ None }
    requires range { HeadInRange (raw_head head.now) }
    ensures { IsPut O.Output sink.old sink.new result
        (body_text (map_head user_symbol_at (raw_head head.now))) }
{
    match *head {
        Head::Null(of) => put(sink, null(of)),
        Head::Bool(truth) => put(sink, bool_text(truth)),
        Head::Int(int) => put(sink, int_to_text(int).as_str().as_bytes()),
        Head::Float(float) => put(sink, float_to_text(float).as_str().as_bytes()),
        Head::Decimal(decimal) => put(sink, decimal_to_text(decimal).as_str().as_bytes()),
        Head::Timestamp(moment) => put(sink, timestamp_to_text(moment).as_str().as_bytes()),
        Head::Symbol(at) => put_symbol(sink, at.sym),
        Head::String(text) => put_quoted(sink, b'"', 256, text),
        Head::Clob(bytes) => put_clob(sink, bytes),
        Head::Blob(bytes) => put_blob(sink, bytes),
        Head::Begin(kind) => put_mark(sink, opener(kind)),
        Head::End | Head::Marker => put(sink, b""),
    }
}
