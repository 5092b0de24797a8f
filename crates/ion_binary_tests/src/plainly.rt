//! Items that are put as binary at once, where the writer takes them so.
ghost use Rattle.std.specs.Prelude.{◌≡◌, ◌==◌, ◌+◌, List, [], true, false, None, IfSome};
ghost use Rattle.ion_value.specs.Digits.{first_is};
ghost use Rattle.ion_value.specs.Items.{raw_head};
ghost use Rattle.ion_value.specs.PlainItems.{HasNoDollar, IsPlainHead, IsPlainItem, IsRightlyQuoted, IsSpelled, SaysRightly, placed_item};
ghost use Rattle.ion_value.specs.Standing.{Fits, HeadInRange, is_marker, open_after_all};
ghost use Rattle.ion_value.specs.Value.{PlacedItem, Text};

use crate::reading::expect_little;
use crate::same::holds;
use crate::written::{FIELDS, Step, TEXTS, go_on};
use ion_meter::device::Output;
use ion_meter::meter::Meter;
use ion_meter::sink::Sink;
use ion_value::ion_type::Kind;
use ion_value::item::{Annotation, Head, Sym};
use ion_value::plain_item::{PlainItem, TextAt};
use ion_value::quoting::{Quoting, code_of};
use ion_value::writer::ValueWriter;
use std::alloc::Global;
use std::process::Abort;

/// The plain item of a step with this head, where that is asked for and it is one that has one
/// annotation at most.
pub fn plain_of<'a>(
    plainly: bool,
    step: Step<'a>,
    head: Head<'a>,
    place: u64,
    top: u64,
) -> Option<PlainItem<'a, 'a>>
    requires range { HeadInRange (raw_head head) }
    ensures range { IfSome result (λ i. HeadInRange (raw_head i.head)) }
    ensures plain { IfSome result (λ i. IsPlainItem (placed_item i)) }
    ensures simple { IfSome result SaysRightly }
    ensures spelled { IfSome result IsSpelled }
    ensures single { IfSome result (λ i. i.second ≡ None) }
{
    if !plainly || !is_known(head) {
        return None;
    }
    let (field, annotations, _) = step;
    let Some(annotation) = only_note(annotations) else {
        return None;
    };
    Some(PlainItem {
        field: field_of(field, place),
        annotation,
        second: None,
        head,
        spelled: None,
        place,
        top,
    })
}

// The field of an item.
fn field_of(field: Option<&[u8]>, place: u64) -> Option<TextAt<'_>>
    ensures { IfSome result IsRightlyQuoted }
{
    let text = field?;
    Some(TextAt {
        text,
        code: code_of(Quoting::Any),
        place: place.saturating_add(FIELDS),
    })
}

// Whether a head is no version marker and no symbol without a text.
fn is_known(head: Head<'_>) -> bool
    ensures { result ≡ true → IsPlainHead (raw_head head.entry) }
{
    match head {
        Head::Marker => false,
        Head::Symbol(at) => matches!(at.sym, Sym::Text(_)),
        _ => true,
    }
}

// No annotation, or the only one, where it is a text without a dollar sign in front.
fn only_note(annotations: &[Annotation]) -> Option<Option<TextAt<'static>>>
    ensures said { IfSome result (λ a. IfSome a IsRightlyQuoted) }
    ensures plain { IfSome result (λ a. IfSome a (λ t. HasNoDollar (Text t.text.now))) }
{
    match annotations {
        [] => Some(None),
        [one] => match note_of(one) {
            Some(note) => Some(Some(note)),
            None => None,
        },
        _ => None,
    }
}

// An annotation that is a text without a dollar sign in front.
fn note_of(annotation: &Annotation) -> Option<TextAt<'static>>
    ensures said { IfSome result IsRightlyQuoted }
    ensures plain { IfSome result (λ t. HasNoDollar (Text t.text.now)) }
{
    let Annotation::Text { from, to, place } = *annotation else {
        return None;
    };
    let text = TEXTS.get(from as usize..to as usize)?;
    if begins_with_dollar(text) {
        return None;
    }
    Some(TextAt {
        text,
        code: code_of(Quoting::Any),
        place,
    })
}

fn begins_with_dollar(text: &[u8]) -> bool
    ensures { result ≡ first_is (λ b. b == 36) text.now }
{
    matches!(text, [b'$', ..])
}

// Whether an item may stand where these containers are open, the innermost first.
fn may_stand(depth: u32, kinds: &[Kind], item: &PlainItem<'_, '_>) -> bool
    requires range { HeadInRange (raw_head item.now.head) }
    requires single { item.now.second ≡ None }
    ensures fits { result ≡ true → Fits depth kinds.now (placed_item item.now) }
    ensures value { result ≡ true → is_marker (raw_head item.now.head) ≡ false }
{
    let field = item.field.is_some();
    let in_struct = matches!(kinds, [Kind::Struct, ..]);
    match item.head {
        Head::Marker => false,
        Head::End => !kinds.is_empty() && !field && item.annotation.is_none(),
        Head::Begin(_) => kinds.len() < depth as usize && field == in_struct,
        _ => field == in_struct,
    }
}

/// Puts a plain item, or answers false where the writer declines it.
pub fn is_put<W: ValueWriter<O, Global>, O: Output>(
    rt: &impl Abort,
    meter: &mut Meter<Global>,
    sink: &mut Sink<O, Global>,
    writer: &mut W,
    kinds: &mut Vec<Kind>,
    depth: u32,
    item: PlainItem<'_, '_>,
) -> bool
    requires sound { W.sound writer.old }
    requires well { W.failed writer.old ≡ None }
    requires sink { sink.old.fault ≡ None }
    requires stands { (path : List PlacedItem) × W.stands writer.old path
        × (open_after_all [] path ≡ kinds.old.items) }
    requires depth { (W.limits writer.old).depth ≡ depth }
    requires held { meter.old.held ≡ 4096 + W.own writer.old }
    requires range { HeadInRange (raw_head item.head) }
    requires plain { IsPlainItem (placed_item item) }
    requires simple { SaysRightly item }
    requires spelled { IsSpelled item }
    requires single { item.second ≡ None }
    ensures sound { W.sound writer.new }
    ensures well { W.failed writer.new ≡ None }
    ensures sink { sink.new.fault ≡ None }
    ensures stands { (path : List PlacedItem) × W.stands writer.new path
        × (open_after_all [] path ≡ kinds.new.items) }
    ensures depth { (W.limits writer.new).depth ≡ depth }
    ensures held { meter.new.held ≡ 4096 + W.own writer.new }
{
    expect_little(rt, meter);
    holds(rt, may_stand(depth, kinds.as_slice(), &item));
    if !writer.take_plain(meter, sink, item) {
        return false;
    }
    go_on(rt, kinds, &item.head);
    true
}
