//! The declaration of texts that are new.
ghost use Rattle.std.specs.Prelude.{◌≡◌, ◌+◌, ◌^◌, ◌<◌, ◌≤◌, None, length};
ghost use Rattle.ion_meter.specs.Sinks.{IsPut};
ghost use Rattle.ion_symbols.specs.Output.{texts_cost};
ghost use Rattle.ion_binary.specs.Canonical.{declaration, headed};
ghost use Rattle.ion_binary.specs.ItemOctets.{declaration_front, strings_octets};

use crate::header::header;
use crate::opening::{LONGEST, joined, opening};
use crate::put::put;
use arrayvec::ArrayVec;
use ion_meter::device::Output;
use ion_meter::fault::Fault;
use ion_meter::sink::Sink;
use ion_symbols::output::Texts;
use std::alloc::Allocator;

/// The first id after the system table's.
pub(crate) const FIRST_ID: u32 = 10;

/// Puts the declaration of these texts, and nothing where there is none.
///
/// It goes over them twice, for their lengths and for their octets, and takes no memory.
pub(crate) fn put_declaration<O: Output, A: Allocator + Copy>(
    sink: &mut Sink<O, A>,
    texts: &Texts<'_>,
) -> Result<(), Fault>
    requires well { sink.old.fault ≡ None }
    requires cost { texts_cost texts.now ≤ 2 ^ 30 }
    ensures { IsPut O.Output sink.old sink.new result (declaration texts.now) }
{
    if texts.is_empty() {
        return put(sink, b"");
    }
    let front = declaration_front(strings_len(texts));
    if let Err(fault) = put(sink, front.as_slice()) {
        return Err(fault);
    }
    put_strings(sink, texts)
}

// What stands before strings of so many octets.
fn declaration_front(strings: u64) -> ArrayVec<u8, LONGEST>
    requires { strings < 2 ^ 62 }
    ensures { result.items ≡ declaration_front strings }
{
    let list = opening(11, &[], strings);
    let fields = joined(b"\x86\x71\x03\x87", list.as_slice());
    let table = opening(13, fields.as_slice(), strings);
    let wrapped = joined(b"\x81\x83", table.as_slice());
    opening(14, wrapped.as_slice(), strings)
}

// How many octets the strings of these texts have.
fn strings_len(texts: &Texts<'_>) -> u64
    requires { texts_cost texts.now ≤ 2 ^ 30 }
    ensures len { result ≡ length (strings_octets texts.now) }
    ensures small { result ≤ texts_cost texts.now }
{
    let mut len = 0;
    let mut index = 0;
    while let Some(text) = texts.get(index) {
        len += string_len(text);
        index += 1;
    }
    len
}

// How many octets the string of a text has.
fn string_len(text: &[u8]) -> u64
    requires { length text.now ≤ 2 ^ 30 }
    ensures len { result ≡ length (headed 8 text.now) }
    ensures small { result ≤ 16 + length text.now }
{
    let len = text.len() as u64;
    header(8, len).len() as u64 + len
}

// Puts the strings of these texts.
fn put_strings<O: Output, A: Allocator + Copy>(
    sink: &mut Sink<O, A>,
    texts: &Texts<'_>,
) -> Result<(), Fault>
    requires well { sink.old.fault ≡ None }
    requires cost { texts_cost texts.now ≤ 2 ^ 30 }
    ensures { IsPut O.Output sink.old sink.new result (strings_octets texts.now) }
{
    let mut index = 0;
    while let Some(text) = texts.get(index) {
        if let Err(fault) = put_string(sink, text) {
            return Err(fault);
        }
        index += 1;
    }
    Ok(())
}

// Puts the string of a text.
fn put_string<O: Output, A: Allocator + Copy>(
    sink: &mut Sink<O, A>,
    text: &[u8],
) -> Result<(), Fault>
    requires well { sink.old.fault ≡ None }
    ensures { IsPut O.Output sink.old sink.new result (headed 8 text.now) }
{
    if let Err(fault) = put(sink, header(8, text.len() as u64).as_slice()) {
        return Err(fault);
    }
    put(sink, text)
}
