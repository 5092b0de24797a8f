//! The text of an item, in parts.
ghost use Rattle.std.specs.Prelude.{◌≡◌, ◌++◌, Bool, None};
ghost use Rattle.ion_value.specs.Items.{raw_head, raw_field, item_of, annotations_of};
ghost use Rattle.ion_text_out.specs.Text.{item_text};
ghost use Rattle.ion_meter.specs.Sinks.{IsPut};
ghost use Rattle.ion_text_out.specs.Steps.{PutsUnlessFailed};
ghost use Rattle.ion_text_out.specs.Writing.{before_end, closing, first_text, is_value, last_text, marked_text, middle_text, annotations_text, shown, value_text};
ghost use Rattle.ion_value.specs.Value.{user_item};
ghost use Rattle.ion_value.specs.Standing.{HeadInRange};

use crate::between::{after, after_end, before, before_end, closing};
use crate::layout::Layout;
use crate::put::{put, put_gap, put_mark};
use crate::scalar::{put_body, put_symbol};
use ion_meter::device::Output;
use ion_meter::fault::Fault;
use ion_meter::sink::Sink;
use ion_value::ion_type::Kind;
use ion_value::item::{Annotations, Head, Item, SymAt};
use ion_value::names::Names;
use std::alloc::Allocator;

/// Puts a symbol and a mark after it, where there is a symbol.
#[inline(always)]
fn put_marked<O: Output, A: Allocator + Copy>(
    sink: &mut Sink<O, A>,
    at: Option<SymAt<'_>>,
    mark: &[u8],
) -> Result<(), Fault>
    requires well { sink.old.fault ≡ None }
    ensures { IsPut O.Output sink.old sink.new result (marked_text mark.now (raw_field at.entry)) }
{
    let Some(at) = at else {
        return put(sink, b"");
    };
    if let Err(fault) = put_symbol(sink, at.sym) {
        return Err(fault);
    }
    put(sink, mark)
}

/// Puts annotations.
#[inline(always)]
fn put_annotations<O: Output, A: Allocator + Copy, N: Names>(
    sink: &mut Sink<O, A>,
    annotations: &Annotations<'_, N>,
) -> Result<(), Fault>
    requires well { sink.old.fault ≡ None }
    ensures { IsPut O.Output sink.old sink.new result
        (annotations_text (annotations_of N.text annotations.now)) }
{
    let count = annotations.len();
    let mut index = 0;
    'annotations: while index < count {
        if let Err(fault) = put_marked(sink, annotations.get(index), b"::") {
            return Err(fault);
        }
        index += 1;
    }
    Ok(())
}

/// Puts the bracket that closes the innermost container after what stands before that.
///
/// Where the sink had failed before, its fault is passed on.
#[inline(always)]
fn put_closing<L: Layout, O: Output, A: Allocator + Copy>(
    sink: &mut Sink<O, A>,
    kinds: &[Kind],
    empty: bool,
) -> Result<(), Fault>
    ensures { PutsUnlessFailed O.Output sink.old sink.new result
        (before_end L.layout (shown kinds.now empty) ++ closing (shown kinds.now empty)) }
{
    if let Err(fault) = put_gap(sink, before_end::<L>(kinds, empty)) {
        return Err(fault);
    }
    put_mark(sink, closing(kinds))
}

/// Puts what stands first of an item: what stands before a value, or the bracket that closes.
///
/// Where the sink had failed before, its fault is passed on.
#[inline(always)]
fn put_first<L: Layout, O: Output, A: Allocator + Copy>(
    sink: &mut Sink<O, A>,
    kinds: &[Kind],
    empty: bool,
    head: &Head<'_>,
) -> Result<(), Fault>
    ensures { PutsUnlessFailed O.Output sink.old sink.new result
        (first_text L.layout (shown kinds.now empty) (raw_head head.now)) }
{
    match *head {
        Head::End => put_closing::<L, O, A>(sink, kinds, empty),
        Head::Marker => sink.put(b""),
        _ => put_gap(sink, before::<L>(kinds, empty)),
    }
}

/// Puts what stands last of an item, the end of a line.
#[inline(always)]
fn put_last<O: Output, A: Allocator + Copy>(
    sink: &mut Sink<O, A>,
    kinds: &[Kind],
    head: &Head<'_>,
) -> Result<(), Fault>
    requires well { sink.old.fault ≡ None }
    ensures { (empty : Bool) → IsPut O.Output sink.old sink.new result
        (last_text (shown kinds.now empty) (raw_head head.now)) }
{
    match *head {
        Head::End => put_mark(sink, after_end(kinds)),
        Head::Begin(_) | Head::Marker => put(sink, b""),
        _ => put_mark(sink, after(kinds)),
    }
}

/// Whether an item has a value: a scalar, or a container that begins.
#[inline(always)]
fn is_value(head: &Head<'_>) -> bool
    ensures { result ≡ is_value (raw_head head.now) }
{
    !matches!(head, Head::End | Head::Marker)
}

/// Puts a field's name, annotations and a scalar or the bracket that opens a container, and
/// nothing for an end.
#[inline(always)]
fn put_middle<L: Layout, O: Output, A: Allocator + Copy, N: Names>(
    sink: &mut Sink<O, A>,
    item: &Item<'_, N>,
    head: &Head<'_>,
) -> Result<(), Fault>
    requires well { sink.old.fault ≡ None }
    requires head { raw_head head.now ≡ (item_of N.text item.now).head }
    requires range { HeadInRange (raw_head head.now) }
    ensures { IsPut O.Output sink.old sink.new result
        (middle_text L.layout (item_of N.text item.now)) }
{
    if is_value(head) {
        put_value::<L, O, A, N>(sink, item.field(), &item.annotations(), head)
    } else {
        put(sink, b"")
    }
}

/// Puts a field's name, annotations, and a scalar or the bracket that opens a container.
#[inline(always)]
fn put_value<L: Layout, O: Output, A: Allocator + Copy, N: Names>(
    sink: &mut Sink<O, A>,
    field: Option<SymAt<'_>>,
    annotations: &Annotations<'_, N>,
    head: &Head<'_>,
) -> Result<(), Fault>
    requires well { sink.old.fault ≡ None }
    requires range { HeadInRange (raw_head head.now) }
    ensures { IsPut O.Output sink.old sink.new result
        (value_text L.layout (raw_field field.entry) (annotations_of N.text annotations.now)
        (raw_head head.now)) }
{
    if let Err(fault) = put_marked(sink, field, L::after_name()) {
        return Err(fault);
    }
    if let Err(fault) = put_annotations(sink, annotations) {
        return Err(fault);
    }
    put_body(sink, head)
}

/// Puts an item with such a head, where these containers are open and the innermost is empty or not.
#[inline(always)]
pub fn put_item<L: Layout, O: Output, A: Allocator + Copy, N: Names>(
    sink: &mut Sink<O, A>,
    kinds: &[Kind],
    empty: bool,
    item: &Item<'_, N>,
    head: &Head<'_>,
) -> Result<(), Fault>
    requires range { HeadInRange (item_of N.text item.now).head }
    requires head { raw_head head.now ≡ (item_of N.text item.now).head }
    ensures { PutsUnlessFailed O.Output sink.old sink.new result
        (item_text L.layout (shown kinds.now empty) (user_item (item_of N.text item.now))) }
{
    if let Err(fault) = put_first::<L, O, A>(sink, kinds, empty, head) {
        return Err(fault);
    }
    if let Err(fault) = put_middle::<L, O, A, N>(sink, item, head) {
        return Err(fault);
    }
    put_last(sink, kinds, head)
}
