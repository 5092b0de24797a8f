//! Writers of text, by its layout.
ghost use Rattle.std.specs.Prelude.{◌≡◌, ◌+◌, ◌*◌, ◌≤◌, ◌<◌, ◌-◌, ◌++◌, ◌∷◌, ℕ, [], length, drop, true, false, if◌then◌else◌, None, Err, OnOk, OnErr, IfErr, IfSome};
ghost use Rattle.ion_meter.specs.declared.fault.Reason.{Reason};
ghost use Rattle.ion_meter.specs.declared.fault.Fault.TheVariants.{Refused};
ghost use Rattle.ion_meter.specs.Limits.{AreChecked};
ghost use Rattle.ion_meter.specs.Counts.{Shrinks};
ghost use Rattle.ion_value.specs.Value.{Known, map_head};
ghost use Rattle.ion_value.specs.Decimal.{IsDecimal, decimal_text};
ghost use Rattle.ion_value.specs.Float.{value_of};
ghost use Rattle.ion_value.specs.FloatText.{float_text};
ghost use Rattle.ion_value.specs.Timestamp.{IsTimestamp, timestamp_text};
ghost use Rattle.ion_value.specs.Int.{int_text};
ghost use Rattle.ion_value.specs.Items.{raw_head, item_of, symbol_of};
ghost use Rattle.ion_value.specs.PlainItems.{IsSpelled, IsWrittenAs, SaysRightly, placed_item};
ghost use Rattle.ion_value.specs.Shares.{MemoryCauses, WriteCauses, fault_of};
ghost use Rattle.ion_text_out.specs.Escape.{between_quotes, is_shown};
ghost use Rattle.ion_value.specs.Digits.{all_are};
ghost use Rattle.ion_text_out.specs.Text.{end_text, head_text, item_text, open_after, opener, symbol_text, with_member};
ghost use Rattle.ion_text_out.specs.Lane.{plain_begin, plain_front};
ghost use Rattle.ion_text_out.specs.Writing.{text_puts, text_adds, text_refusal};
ghost use Rattle.ion_value.specs.Value.{user_item, user_symbol, user_symbol_at};
ghost use Rattle.ion_text_out.specs.Steps.{CanStep, HasPutNothing, HasRoomFor, HasShown, IsSound, MayCome, PutsText, Stepped, TakesHead, TakesScalar, failed_of, held_by, limits_of, opened_in, share_of, text_of};
ghost use Rattle.ion_text_out.specs.Written.{text_grows, text-within};

use crate::bare::is_bare;
use crate::between::{after, after_end, before, before_end, closing, opener};
use crate::front::{all, has_room, put_front, put_mark, spell, spell_notes, text_in};
use crate::item::put_item;
use crate::layout::{Canonical, Layout, Pretty};
use crate::put::put_gap_within;
use crate::quote::{stands_in_string, stands_in_symbol};
use crate::scalar::{bool_text, null};
use arrayvec::ArrayVec;
use ion_float::text::float_to_text;
use ion_meter::device::Output;
use ion_meter::fault::Fault;
use ion_meter::limits::Limits;
use ion_meter::meter::Meter;
use ion_meter::sink::Sink;
use ion_meter::stack::Stack;
use ion_value::decimal::{Decimal, decimal_to_text};
use ion_value::float::Float64;
use ion_value::int::Int;
use ion_value::ion_type::Kind;
use ion_value::item::{Head, Item, Sym};
use ion_value::names::Names;
use ion_value::plain_item::PlainItem;
use ion_value::quoting::{NameText, Quoting};
use ion_value::timestamp::{Timestamp, timestamp_to_text};
use ion_value::writer::ValueWriter;
use itoa::Buffer;
use std::alloc::Allocator;
use std::marker::PhantomData;

/// Writes values as text of this layout, each value at top level on lines of its own.
///
/// A value is written one item at a time: a container that is open has its opening bracket and
/// the members so far. It holds 16 counted bytes for each open container and refuses nothing.
#[derive(Drop)]
pub struct LaidOut<L: Layout, A: Allocator + Copy> {
    limits: Limits,
    kinds: Stack<Kind, A>,
    empty: bool,
    failed: Option<Fault>,
    layout: PhantomData<L>,
}

/// Writes values as canonical text, each value at top level on a line of its own.
pub type TextWriter<A> = LaidOut<Canonical, A>;

/// Writes values as pretty text, each member of a container on a line of its own.
pub type PrettyWriter<A> = LaidOut<Pretty, A>;

impl<L: Layout, A: Allocator + Copy> LaidOut<L, A> {
    /// A writer that has put nothing. It takes no memory.
    pub fn new(meter: &Meter<A>, limits: Limits) -> LaidOut<L, A>
        requires checked { AreChecked limits }
        ensures limits { limits_of result ≡ limits }
        ensures nothing { HasPutNothing result }
        ensures ready { IsSound result }
    {
        LaidOut {
            limits,
            kinds: Stack::new(meter),
            empty: true,
            failed: None,
            layout: PhantomData,
        }
    }

    /// Gives back what it holds.
    pub fn release(self, meter: &mut Meter<A>)
        requires { held_by self ≤ meter.old.held }
        ensures { Shrinks meter.old meter.new (held_by self) }
    {
        let LaidOut {
            limits: _,
            kinds,
            empty: _,
            failed: _,
            layout: _,
        } = self;
        kinds.release(meter);
    }

    // Puts an item and moves to after it.
    #[inline(always)]
    fn take<O: Output, N: Names>(
        &mut self,
        meter: &mut Meter<A>,
        sink: &mut Sink<O, A>,
        item: &Item<'_, N>,
    ) -> Result<(), Fault>
        requires can_step { CanStep self.old meter.old }
        requires comes { MayCome self.old (item_of N.text item.now).head }
        ensures opens { OnOk result (opened_in self.new
            ≡ open_after (opened_in self.old)
            (map_head user_symbol_at (item_of N.text item.now).head)) }
        ensures puts { PutsText O.Output sink.old sink.new result
            (text_of L.layout self.old (item_of N.text item.now)) }
        ensures refuses { sink.old.fault ≡ None
            → (r : Reason) (p : ℕ) → result ≡ Err (Refused r p) → ⊥ }
        ensures memory { MemoryCauses (fault_of result) meter.old meter.new }
        ensures causes { sink.old.fault ≡ None → WriteCauses (fault_of result)
            (O.failure_count sink.old.device) (O.failure_count sink.new.device) }
        ensures stepped { Stepped self.old self.new meter.old meter.new }
    {
        let head = item.head();
        if let Err(fault) = put_item::<L, O, A, N>(
            sink,
            self.kinds.as_slice(),
            self.empty,
            item,
            &head,
        ) {
            return Err(fault);
        }
        self.settle(meter, &head)
    }

    // Moves to after a head.
    #[inline(always)]
    fn settle(&mut self, meter: &mut Meter<A>, head: &Head<'_>) -> Result<(), Fault>
        requires can_step { CanStep self.old meter.old }
        requires fits { HasRoomFor self.old (raw_head head.now) }
        ensures opens { OnOk result (opened_in self.new
            ≡ open_after (opened_in self.old) (map_head user_symbol_at (raw_head head.now))) }
        ensures memory { IfErr result (λ f. f ≡ Fault.Memory) }
        ensures refused { OnErr result (meter.old.refused < meter.new.refused) }
        ensures counted { OnOk result (meter.new.refused ≡ meter.old.refused) }
        ensures stepped { Stepped self.old self.new meter.old meter.new }
    {
        match *head {
            Head::Begin(kind) => {
                if let Err((_, fault)) = self.kinds.push(meter, kind) {
                    return Err(fault);
                }
                self.empty = true;
            }
            Head::End => {
                self.kinds.pop(meter);
                self.empty = false;
            }
            Head::Marker => {}
            _ => self.empty = false,
        }
        Ok(())
    }
}

// The calls of `take_plain`, by what the item is: each puts all of the item and moves after it, or
// answers false and changes nothing. They are calls of their own that take few words: the canonical
// texts of the item's name and annotations, which are empty where there is none, as no symbol's is.
impl<L: Layout, A: Allocator + Copy> LaidOut<L, A> {
    // A scalar of this text between two marks of a byte or none.
    #[inline(always)]
    fn take_marked<O: Output>(
        &mut self,
        sink: &mut Sink<O, A>,
        name: &[u8],
        note: &[u8],
        first: &[u8],
        text: &[u8],
        last: &[u8],
    ) -> bool
        requires first { length first.now ≤ 1 }
        requires last { length last.now ≤ 1 }
        ensures { TakesScalar L.layout self.old self.new sink.old sink.new result
            name.now note.now (first.now ++ (text.now ++ last.now)) }
    {
        if !has_room::<L, O, A>(sink, self.kinds.as_slice(), name, note, text.len() + 2) {
            return false;
        }
        put_gap_within(sink, before::<L>(self.kinds.as_slice(), self.empty));
        put_front::<L, O, A>(sink, name, note);
        put_mark(sink, first);
        sink.put_within(text);
        put_mark(sink, last);
        put_mark(sink, after(self.kinds.as_slice()));
        self.empty = false;
        true
    }

    // A scalar of this text.
    #[inline(never)]
    fn take_text<O: Output>(
        &mut self,
        sink: &mut Sink<O, A>,
        name: &[u8],
        note: &[u8],
        text: &[u8],
    ) -> bool
        ensures { TakesScalar L.layout self.old self.new sink.old sink.new result
            name.now note.now text.now }
    {
        self.take_marked(sink, name, note, b"", text, b"")
    }

    // A symbol.
    #[inline(always)]
    fn take_symbol<O: Output>(
        &mut self,
        sink: &mut Sink<O, A>,
        name: &[u8],
        note: &[u8],
        symbol: Sym<'_>,
    ) -> bool
        ensures { TakesScalar L.layout self.old self.new sink.old sink.new result
            name.now note.now (symbol_text (user_symbol (symbol_of symbol.entry))) }
    {
        match symbol {
            Sym::Text(text) => self.take_known(sink, name, note, text),
            Sym::Id(_) => self.take_text(sink, name, note, b"$0"),
        }
    }

    // The symbol of a text.
    #[inline(never)]
    fn take_known<O: Output>(
        &mut self,
        sink: &mut Sink<O, A>,
        name: &[u8],
        note: &[u8],
        text: &[u8],
    ) -> bool
        ensures { TakesScalar L.layout self.old self.new sink.old sink.new result
            name.now note.now (symbol_text (Known text.now)) }
    {
        if is_bare(text) {
            return self.take_text(sink, name, note, text);
        }
        if !stands_in_symbol(text) {
            return false;
        }
        self.take_quoted(sink, name, note, text)
    }

    // A symbol between quotes, which has no escapes.
    #[inline(never)]
    fn take_quoted<O: Output>(
        &mut self,
        sink: &mut Sink<O, A>,
        name: &[u8],
        note: &[u8],
        text: &[u8],
    ) -> bool
        requires { all_are (is_shown 39 256) text.now ≡ true }
        ensures { TakesScalar L.layout self.old self.new sink.old sink.new result
            name.now note.now (between_quotes 39 256 text.now) }
    {
        self.take_marked(sink, name, note, b"'", text, b"'")
    }

    // A string that has no escapes.
    #[inline(never)]
    fn take_string<O: Output>(
        &mut self,
        sink: &mut Sink<O, A>,
        name: &[u8],
        note: &[u8],
        text: &[u8],
    ) -> bool
        ensures { TakesScalar L.layout self.old self.new sink.old sink.new result
            name.now note.now (between_quotes 34 256 text.now) }
    {
        if !stands_in_string(text) {
            return false;
        }
        self.take_marked(sink, name, note, b"\"", text, b"\"")
    }

    // An int.
    #[inline(always)]
    fn take_int<O: Output>(
        &mut self,
        sink: &mut Sink<O, A>,
        name: &[u8],
        note: &[u8],
        int: Int,
    ) -> bool
        ensures { TakesScalar L.layout self.old self.new sink.old sink.new result
            name.now note.now (int_text int) }
    {
        if int.magnitude > u64::MAX as u128 {
            return false;
        }
        self.take_narrow_int(sink, name, note, int.negative, int.magnitude as u64)
    }

    // An int with this sign and a magnitude that 64 bits hold.
    #[inline(never)]
    fn take_narrow_int<O: Output>(
        &mut self,
        sink: &mut Sink<O, A>,
        name: &[u8],
        note: &[u8],
        negative: bool,
        magnitude: u64,
    ) -> bool
        ensures { TakesScalar L.layout self.old self.new sink.old sink.new result name.now note.now
            (int_text (record { negative = negative; magnitude = magnitude })) }
    {
        let mut buffer = Buffer::new();
        let digits = buffer.format(magnitude).as_bytes();
        self.take_marked(sink, name, note, minus(negative), digits, b"")
    }

    // A float. Its text goes to no further call, which would move all that this one was given.
    #[inline(never)]
    fn take_float<O: Output>(
        &mut self,
        sink: &mut Sink<O, A>,
        name: &[u8],
        note: &[u8],
        float: Float64,
    ) -> bool
        ensures { TakesScalar L.layout self.old self.new sink.old sink.new result
            name.now note.now (float_text (value_of float)) }
    {
        let text = float_to_text(float);
        self.take_marked(sink, name, note, b"", text.as_str().as_bytes(), b"")
    }

    // A decimal. It is in line, since what is handed to a call of its own would go by memory, which all ways
    // of `take_head` would clear.
    #[inline(always)]
    fn take_decimal<O: Output>(
        &mut self,
        sink: &mut Sink<O, A>,
        name: &[u8],
        note: &[u8],
        decimal: Decimal,
    ) -> bool
        requires { IsDecimal decimal }
        ensures { TakesScalar L.layout self.old self.new sink.old sink.new result
            name.now note.now (decimal_text decimal) }
    {
        let text = decimal_to_text(decimal);
        self.take_text(sink, name, note, text.as_str().as_bytes())
    }

    // A timestamp, by a call that is not in line. What is handed to that goes by memory, which is of this way
    // alone: where the call stands in `take_head`, all ways there clear it.
    #[inline(always)]
    fn take_timestamp<O: Output>(
        &mut self,
        sink: &mut Sink<O, A>,
        name: &[u8],
        note: &[u8],
        moment: Timestamp,
    ) -> bool
        requires { IsTimestamp moment }
        ensures { TakesScalar L.layout self.old self.new sink.old sink.new result
            name.now note.now (timestamp_text moment) }
    {
        self.take_timestamp_text(sink, name, note, moment)
    }

    // The text of a timestamp.
    #[inline(never)]
    fn take_timestamp_text<O: Output>(
        &mut self,
        sink: &mut Sink<O, A>,
        name: &[u8],
        note: &[u8],
        moment: Timestamp,
    ) -> bool
        requires { IsTimestamp moment }
        ensures { TakesScalar L.layout self.old self.new sink.old sink.new result
            name.now note.now (timestamp_text moment) }
    {
        let text = timestamp_to_text(moment);
        self.take_text(sink, name, note, text.as_str().as_bytes())
    }

    // The beginning of a container.
    #[inline(never)]
    fn take_begin<O: Output>(
        &mut self,
        meter: &mut Meter<A>,
        sink: &mut Sink<O, A>,
        name: &[u8],
        note: &[u8],
        kind: Kind,
    ) -> bool
        requires can_step { CanStep self.old meter.old }
        requires deep { length self.old.kinds < self.old.limits.depth }
        ensures { TakesHead self.old self.new meter.old meter.new sink.old sink.new result
            (plain_begin L.layout (opened_in self.old) name.now note.now (opener kind))
            ((kind, true) ∷ with_member (opened_in self.old)) }
    {
        if !has_room::<L, O, A>(sink, self.kinds.as_slice(), name, note, 1) {
            return false;
        }
        let gap = before::<L>(self.kinds.as_slice(), self.empty);
        if !self.kinds.push_within(meter, kind) {
            return false;
        }
        put_gap_within(sink, gap);
        put_front::<L, O, A>(sink, name, note);
        put_mark(sink, opener(kind));
        self.empty = true;
        true
    }

    // The end of the innermost container.
    #[inline(never)]
    fn take_end<O: Output>(&mut self, meter: &mut Meter<A>, sink: &mut Sink<O, A>) -> bool
        requires can_step { CanStep self.old meter.old }
        ensures { TakesHead self.old self.new meter.old meter.new sink.old sink.new result
            (end_text L.layout (opened_in self.old)) (drop 1 (opened_in self.old)) }
    {
        let gap = before_end::<L>(self.kinds.as_slice(), self.empty);
        if !gap.fits(2, sink.room()) {
            return false;
        }
        put_gap_within(sink, gap);
        put_mark(sink, closing(self.kinds.as_slice()));
        put_mark(sink, after_end(self.kinds.as_slice()));
        self.kinds.pop(meter);
        self.empty = false;
        true
    }

    // A head, which may come with its text.
    #[inline(always)]
    fn take_head<O: Output>(
        &mut self,
        meter: &mut Meter<A>,
        sink: &mut Sink<O, A>,
        name: &[u8],
        note: &[u8],
        head: Head<'_>,
        spelled: Option<NameText<'_>>,
    ) -> bool
        requires can_step { CanStep self.old meter.old }
        requires comes { MayCome self.old (raw_head head) }
        requires spelled { IfSome spelled (λ t. IsWrittenAs t.quoting t.text.now (raw_head head)) }
        ensures { TakesHead self.old self.new meter.old meter.new sink.old sink.new result
            (head_text L.layout (opened_in self.old) (plain_front L.layout name.now note.now)
            (map_head user_symbol_at (raw_head head.entry)))
            (open_after (opened_in self.old) (map_head user_symbol_at (raw_head head.entry))) }
    {
        if let Some(found) = spelled {
            return match found.quoting {
                Quoting::Bare => self.take_text(sink, name, note, found.text),
                Quoting::Quoted => self.take_quoted(sink, name, note, found.text),
                Quoting::Any => false,
            };
        }
        match head {
            Head::Null(of) => self.take_text(sink, name, note, null(of)),
            Head::Bool(truth) => self.take_text(sink, name, note, bool_text(truth)),
            Head::Int(int) => self.take_int(sink, name, note, int),
            Head::Float(float) => self.take_float(sink, name, note, float),
            Head::Decimal(decimal) => self.take_decimal(sink, name, note, decimal),
            Head::Timestamp(moment) => self.take_timestamp(sink, name, note, moment),
            Head::Symbol(at) => self.take_symbol(sink, name, note, at.sym),
            Head::String(text) => self.take_string(sink, name, note, text),
            Head::Begin(kind) => self.take_begin(meter, sink, name, note, kind),
            Head::End => self.take_end(meter, sink),
            _ => false,
        }
    }

    // An item whose name or annotation may stand between quotes, or that has two annotations: they
    // are spelled first. It is marked as cold, so that what leads to it stands apart from what is
    // frequent, and takes no register from it.
    #[cold]
    #[inline(never)]
    fn take_spelled<O: Output>(
        &mut self,
        meter: &mut Meter<A>,
        sink: &mut Sink<O, A>,
        item: PlainItem<'_, '_>,
    ) -> bool
        requires can_step { CanStep self.old meter.old }
        requires comes { MayCome self.old (raw_head item.head) }
        requires quoted { SaysRightly item }
        requires spelled { IsSpelled item }
        ensures { TakesHead self.old self.new meter.old meter.new sink.old sink.new result
            (item_text L.layout (opened_in self.old) (user_item (placed_item item.entry)))
            (open_after (opened_in self.old) (user_item (placed_item item.entry)).head) }
    {
        let mut front = ArrayVec::new();
        if !spell(&mut front, item.field) {
            return false;
        }
        let cut = front.len();
        if !spell_notes(&mut front, item.annotation, item.second) {
            return false;
        }
        let (name, note) = front.as_slice().split_at(cut);
        self.take_head(meter, sink, name, note, item.head, item.spelled)
    }
}

// The minus of a number below zero.
#[inline(always)]
fn minus(negative: bool) -> &'static [u8]
    ensures { result.now ≡ (if negative then 45 ∷ [] else []) }
{
    if negative { b"-" } else { b"" }
}

impl<L: Layout, O: Output, A: Allocator + Copy> ValueWriter<O, A> for LaidOut<L, A> {
    ghost puts = { text_puts L.layout };

    ghost adds = { text_adds L.layout };

    ghost refusal = { text_refusal };

    ghost limits = { limits_of };

    ghost is_new = { HasPutNothing };

    ghost stands = { HasShown };

    ghost failed = { failed_of };

    ghost own = { held_by };

    ghost most = { share_of };

    ghost sound = { IsSound };

    fn begin(&mut self, sink: &mut Sink<O, A>) -> Result<(), Fault> {
        let outcome = sink.put(b"");
        if let Err(fault) = outcome {
            self.failed = Some(fault);
        }
        outcome
    }

    #[inline(always)]
    fn item<N: Names>(
        &mut self,
        meter: &mut Meter<A>,
        sink: &mut Sink<O, A>,
        item: &Item<'_, N>,
    ) -> Result<(), Fault> {
        if let Some(fault) = self.failed {
            return Err(fault);
        }
        match self.take(meter, sink, item) {
            Ok(()) => Ok(()),
            Err(fault) => {
                self.failed = Some(fault);
                Err(fault)
            }
        }
    }

    #[inline(always)]
    fn take_plain(
        &mut self,
        meter: &mut Meter<A>,
        sink: &mut Sink<O, A>,
        item: PlainItem<'_, '_>,
    ) -> bool {
        let name = text_in(item.field);
        let note = text_in(item.annotation);
        if !all(name.1, note.1, item.second.is_none()) {
            // An aggregate that goes to a call is zeroed where the function begins: this one is built here,
            // so that other items do not pay for it.
            let item = PlainItem { ..item };
            return self.take_spelled(meter, sink, item);
        }
        self.take_head(meter, sink, name.0, note.0, item.head, item.spelled)
    }

    ghost grows = { text_grows L.layout };

    ghost silent = { λ limits path item why e. absurd (Prim.cc e) };

    ghost within = { λ w ready. text-within w.limits (length w.kinds) ready };
}
