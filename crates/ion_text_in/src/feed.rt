//! A lane for items that lie whole in the window: they go to the writer as they are read.
ghost use Rattle.std.specs.Prelude.{◌≡◌, None};
ghost use Rattle.ion_text_in.specs.Feeding.{lane, BeginsAs, CanFeed, IsNext, IsSimpleWord, IsStart, Moved, MovedBy, Turns, TurnsBy};
ghost use Rattle.ion_text_in.specs.Token.{a_begin, a_run, a_short, a_word};

mod any;
mod close;
mod copies;
mod forward;
mod heads;
mod ids;
mod names;
mod noted;
mod quotes;
pub(crate) mod spot;
mod texts;

use crate::first::{First, told_first};
use crate::quick::scan_quick;
use crate::scanned::Scanned;
use crate::slice::{after, front};
use crate::word::{Word, scan_simple};
use any::{rare, rare_number};
use close::close;
use forward::forward;
use heads::{
    begin_head, decimal_head, int_head, keyword_head, spelled_quick, string_head, symbol_head,
    token,
};
use ids::{id_turns, is_dollar_near};
use ion_meter::device::Output;
use ion_meter::meter::Meter;
use ion_meter::profile::Rules;
use ion_meter::sink::Sink;
use ion_meter::stack::Stack;
use ion_value::ion_type::Kind;
use ion_value::names::Names;
use ion_value::writer::ValueWriter;
use names::to_start;
use noted::noted;
use quotes::{quoted_turn, quoted_value};
use spot::{Bounds, Found, Next, Spot, Start, WORD, ended_kind, to_member};
use std::alloc::Allocator;

// Hands on a number: an int or a decimal is mostly read in one pass.
#[inline(always)]
fn number<'a, W: ValueWriter<O, A>, O: Output, A: Allocator + Copy>(
    at: &mut Spot<'a>,
    start: Start<'a>,
    bounds: Bounds,
    kinds: &mut Stack<Kind, A>,
    meter: &mut Meter<A>,
    writer: &mut W,
    sink: &mut Sink<O, A>,
) -> bool
    requires can { CanFeed W.ValueWriter bounds
        (lane kinds.old at.old writer.old sink.old meter.old) }
    requires start { IsStart bounds at.old start }
    requires begins { BeginsAs a_run start.next.rest.now }
    ensures { Turns W.ValueWriter bounds result
        (lane kinds.old at.old writer.old sink.old meter.old)
        (lane kinds.new at.new writer.new sink.new meter.new) }
{
    let Some(quick) = scan_quick(bounds.limits.scalar, start.next.rest) else {
        return rare_number(at, start, bounds, kinds, meter, writer, sink);
    };
    let text = front(quick.count, start.next.rest);
    let rest = after(quick.count, start.next.rest);
    match quick.exponent {
        None => {
            let found = Found {
                head: int_head(quick),
                spelled: Some(text),
                rest,
            };
            forward(at, start, found, bounds, kinds, meter, writer, sink)
        }
        Some(exponent) => {
            let found = Found {
                head: decimal_head(quick, exponent),
                spelled: spelled_quick(quick, text),
                rest,
            };
            forward(at, start, found, bounds, kinds, meter, writer, sink)
        }
    }
}

// Hands on a word: a null, a bool, or a symbol, after which a token is told that is no two colons.
#[inline(always)]
fn word<'a, W: ValueWriter<O, A>, O: Output, A: Allocator + Copy>(
    at: &mut Spot<'a>,
    start: Start<'a>,
    bounds: Bounds,
    kinds: &mut Stack<Kind, A>,
    meter: &mut Meter<A>,
    writer: &mut W,
    sink: &mut Sink<O, A>,
) -> bool
    requires can { CanFeed W.ValueWriter bounds
        (lane kinds.old at.old writer.old sink.old meter.old) }
    requires start { IsStart bounds at.old start }
    requires bare { start.note ≡ None }
    requires begins { BeginsAs a_word start.next.rest.now }
    ensures { Turns W.ValueWriter bounds result
        (lane kinds.old at.old writer.old sink.old meter.old)
        (lane kinds.new at.new writer.new sink.new meter.new) }
{
    let bytes = start.next.rest;
    let place = bounds.end - bytes.len() as u64;
    match scan_simple(bounds.limits.scalar, bytes) {
        Scanned::Whole(Word::Name, count) => {
            match symbol_head(bounds.limits, place, count, bytes) {
                Some(found) => forward(at, start, found, bounds, kinds, meter, writer, sink),
                None => note(at, start, count, bounds, kinds, meter, writer, sink),
            }
        }
        Scanned::Whole(word, count) => {
            match keyword_head(bounds.limits, place, word, count, bytes) {
                Some(found) => forward(at, start, found, bounds, kinds, meter, writer, sink),
                None => false,
            }
        }
        _ => false,
    }
}

// Hands on the value after the annotation of so many bytes that stands here.
#[inline(always)]
fn note<'a, W: ValueWriter<O, A>, O: Output, A: Allocator + Copy>(
    at: &mut Spot<'a>,
    start: Start<'a>,
    count: usize,
    bounds: Bounds,
    kinds: &mut Stack<Kind, A>,
    meter: &mut Meter<A>,
    writer: &mut W,
    sink: &mut Sink<O, A>,
) -> bool
    requires can { CanFeed W.ValueWriter bounds
        (lane kinds.old at.old writer.old sink.old meter.old) }
    requires start { IsStart bounds at.old start }
    requires bare { start.note ≡ None }
    requires begins { BeginsAs a_word start.next.rest.now }
    requires word { IsSimpleWord bounds.limits.scalar start.next.rest.now count }
    ensures { Turns W.ValueWriter bounds result
        (lane kinds.old at.old writer.old sink.old meter.old)
        (lane kinds.new at.new writer.new sink.new meter.new) }
{
    let place = bounds.end - start.next.rest.len() as u64;
    match noted(start, bounds.limits.scalar, place, count) {
        Some(start) => rare(at, start, bounds, kinds, meter, writer, sink),
        None => false,
    }
}

// Hands on a string of plain bytes alone.
#[inline(always)]
fn string<'a, W: ValueWriter<O, A>, O: Output, A: Allocator + Copy>(
    at: &mut Spot<'a>,
    start: Start<'a>,
    bounds: Bounds,
    kinds: &mut Stack<Kind, A>,
    meter: &mut Meter<A>,
    writer: &mut W,
    sink: &mut Sink<O, A>,
) -> bool
    requires can { CanFeed W.ValueWriter bounds
        (lane kinds.old at.old writer.old sink.old meter.old) }
    requires start { IsStart bounds at.old start }
    requires begins { BeginsAs a_short start.next.rest.now }
    ensures { Turns W.ValueWriter bounds result
        (lane kinds.old at.old writer.old sink.old meter.old)
        (lane kinds.new at.new writer.new sink.new meter.new) }
{
    let place = bounds.end - start.next.rest.len() as u64;
    match string_head(bounds.limits, place, start.next.rest) {
        Some(found) => forward(at, start, found, bounds, kinds, meter, writer, sink),
        None => false,
    }
}

// Hands on a container's beginning.
#[inline(always)]
fn begin<'a, W: ValueWriter<O, A>, O: Output, A: Allocator + Copy>(
    at: &mut Spot<'a>,
    start: Start<'a>,
    kind: Kind,
    bounds: Bounds,
    kinds: &mut Stack<Kind, A>,
    meter: &mut Meter<A>,
    writer: &mut W,
    sink: &mut Sink<O, A>,
) -> bool
    requires can { CanFeed W.ValueWriter bounds
        (lane kinds.old at.old writer.old sink.old meter.old) }
    requires start { IsStart bounds at.old start }
    requires begins { BeginsAs (a_begin kind) start.next.rest.now }
    ensures { Turns W.ValueWriter bounds result
        (lane kinds.old at.old writer.old sink.old meter.old)
        (lane kinds.new at.new writer.new sink.new meter.new) }
{
    let place = bounds.end - start.next.rest.len() as u64;
    let found = begin_head(bounds.limits, place, kind, start.next.rest);
    forward(at, start, found, bounds, kinds, meter, writer, sink)
}

// Hands on the value that begins here, or the container's beginning, after its field's name. Each kind has a
// function of its own, since a function pays at its entry for what it finds on the way.
// It is put in line where it is called, which is once; the mark `always` would be dropped, since so
// much is put in line in it.
#[inline]
fn value<'a, W: ValueWriter<O, A>, O: Output, A: Allocator + Copy>(
    at: &mut Spot<'a>,
    next: Next<'a>,
    bounds: Bounds,
    kinds: &mut Stack<Kind, A>,
    meter: &mut Meter<A>,
    writer: &mut W,
    sink: &mut Sink<O, A>,
) -> bool
    requires can { CanFeed W.ValueWriter bounds
        (lane kinds.old at.old writer.old sink.old meter.old) }
    requires next { IsNext at.old.rest.now next }
    ensures { Turns W.ValueWriter bounds result
        (lane kinds.old at.old writer.old sink.old meter.old)
        (lane kinds.new at.new writer.new sink.new meter.new) }
{
    let Some(start) = to_start(*at, next, bounds) else {
        return false;
    };
    match token(start.next) {
        Some(First::Number) => number(at, start, bounds, kinds, meter, writer, sink),
        Some(First::Word) => word(at, start, bounds, kinds, meter, writer, sink),
        Some(First::String) => string(at, start, bounds, kinds, meter, writer, sink),
        Some(First::Begin(kind)) => begin(at, start, kind, bounds, kinds, meter, writer, sink),
        Some(First::QuotedSymbol) => quoted_value(at, start, bounds, kinds, meter, writer, sink),
        _ => false,
    }
}

// Hands on one item, after the comma that must come before it, and says whether it did.
#[inline(always)]
fn turn<'a, W: ValueWriter<O, A>, O: Output, A: Allocator + Copy>(
    at: &mut Spot<'a>,
    bounds: Bounds,
    kinds: &mut Stack<Kind, A>,
    meter: &mut Meter<A>,
    writer: &mut W,
    sink: &mut Sink<O, A>,
) -> bool
    requires { CanFeed W.ValueWriter bounds
        (lane kinds.old at.old writer.old sink.old meter.old) }
    ensures { Turns W.ValueWriter bounds result
        (lane kinds.old at.old writer.old sink.old meter.old)
        (lane kinds.new at.new writer.new sink.new meter.new) }
{
    let next = to_member(at);
    match ended_kind(next.told) {
        Some(kind) => close(at, next, kind, bounds, kinds, meter, writer, sink),
        None => value(at, next, bounds, kinds, meter, writer, sink),
    }
}

// Hands on the items at the front, as many as are frequent ones. The limits and the end come apart: so the end
// stays in a register.
#[inline(never)]
fn feed_frequent<'a, W: ValueWriter<O, A>, O: Output, A: Allocator + Copy>(
    spot: Spot<'a>,
    limits: Rules,
    end: u64,
    kinds: &mut Stack<Kind, A>,
    meter: &mut Meter<A>,
    writer: &mut W,
    sink: &mut Sink<O, A>,
) -> Spot<'a>
    requires { CanFeed W.ValueWriter (record { limits = limits; end = end })
        (lane kinds.old spot writer.old sink.old meter.old) }
    ensures { Moved W.ValueWriter (record { limits = limits; end = end })
        (lane kinds.old spot.entry writer.old sink.old meter.old)
        (lane kinds.new result writer.new sink.new meter.new) }
{
    let mut at = spot;
    'items: loop {
        let bounds = Bounds { limits, end };
        if !turn(&mut at, bounds, kinds, meter, writer, sink) {
            return at;
        }
    }
}

// Hands on a member whose name stands between quotes, or else members that have ids, and says whether it
// did. Where a word stands here, it looks for no name between quotes.
#[inline(always)]
fn other_turns<'a, N: Names, W: ValueWriter<O, A>, O: Output, A: Allocator + Copy>(
    at: &mut Spot<'a>,
    names: &'a N,
    bounds: Bounds,
    kinds: &mut Stack<Kind, A>,
    meter: &mut Meter<A>,
    writer: &mut W,
    sink: &mut Sink<O, A>,
) -> bool
    requires { CanFeed W.ValueWriter bounds
        (lane kinds.old at.old writer.old sink.old meter.old) }
    ensures { TurnsBy W.ValueWriter bounds (N.text names.now) result
        (lane kinds.old at.old writer.old sink.old meter.old)
        (lane kinds.new at.new writer.new sink.new meter.new) }
{
    if told_first(at.rest) == WORD {
        return near_ids(at, names, bounds, kinds, meter, writer, sink);
    }
    if quoted_turn(at, bounds, kinds, meter, writer, sink) {
        return true;
    }
    near_ids(at, names, bounds, kinds, meter, writer, sink)
}

// Forwards members that have ids, where a dollar sign is near, and says whether it did.
#[inline(always)]
fn near_ids<'a, N: Names, W: ValueWriter<O, A>, O: Output, A: Allocator + Copy>(
    at: &mut Spot<'a>,
    names: &'a N,
    bounds: Bounds,
    kinds: &mut Stack<Kind, A>,
    meter: &mut Meter<A>,
    writer: &mut W,
    sink: &mut Sink<O, A>,
) -> bool
    requires { CanFeed W.ValueWriter bounds
        (lane kinds.old at.old writer.old sink.old meter.old) }
    ensures { TurnsBy W.ValueWriter bounds (N.text names.now) result
        (lane kinds.old at.old writer.old sink.old meter.old)
        (lane kinds.new at.new writer.new sink.new meter.new) }
{
    if !is_dollar_near(at.rest) {
        return false;
    }
    let left = at.rest.len();
    *at = id_turns(*at, names, bounds, kinds, meter, writer, sink);
    at.rest.len() < left
}

/// Hands on the items at the front of the bytes of a window that ends at a place, as many as lie whole
/// in it and are taken. A member whose name stands between quotes, and members that have ids, are handed
/// on between two runs of the loop over all others, in which it is known that names are simple.
#[inline(always)]
pub(crate) fn feed_items<'a, N: Names, W: ValueWriter<O, A>, O: Output, A: Allocator + Copy>(
    spot: Spot<'a>,
    names: &'a N,
    bounds: Bounds,
    kinds: &mut Stack<Kind, A>,
    meter: &mut Meter<A>,
    writer: &mut W,
    sink: &mut Sink<O, A>,
) -> Spot<'a>
    requires { CanFeed W.ValueWriter bounds
        (lane kinds.old spot writer.old sink.old meter.old) }
    ensures { MovedBy W.ValueWriter bounds (N.text names.now)
        (lane kinds.old spot.entry writer.old sink.old meter.old)
        (lane kinds.new result writer.new sink.new meter.new) }
{
    let mut at = spot;
    'runs: loop {
        at = feed_frequent(at, bounds.limits, bounds.end, kinds, meter, writer, sink);
        if !other_turns(&mut at, names, bounds, kinds, meter, writer, sink) {
            return at;
        }
    }
}
