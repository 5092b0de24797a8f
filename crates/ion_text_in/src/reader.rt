//! The reader of texts.
ghost use Rattle.std.specs.Prelude.{◌≡◌, ◌≢◌, ◌+◌, ◌*◌, ◌<◌, ◌≤◌, [], length, option_map, IfSome, OnOk, Option, None, Ok, true};
ghost use Rattle.ion_meter.specs.Counts.{Counts, Shrinks};
ghost use Rattle.ion_meter.specs.Devices.{IsReadOn};
ghost use Rattle.ion_meter.specs.Limits.{AreChecked};
ghost use Rattle.ion_meter.proofs.ReadOn.{read_on-not, read_on-then};
ghost use Rattle.ion_meter.specs.Rules.{rules, strictly};
ghost use Rattle.ion_meter.specs.Sources.{BytesAreLeft, cursor, skip, Exceeds, Stands};
ghost use Rattle.ion_meter.specs.Windows.{left, lent};
ghost use Rattle.ion_value.specs.Float.{IsFloat, value_of};
ghost use Rattle.ion_value.specs.Items.{raw_head};
ghost use Rattle.ion_value.specs.Reading.{Finished};
ghost use Rattle.ion_text_in.specs.Firsts.{first_of, width};
ghost use Rattle.ion_text_in.specs.Positions.{innermost, in_sexp};
ghost use Rattle.ion_text_in.specs.Reading as reading;
ghost use Rattle.ion_text_in.specs.Strict.{reading, reading_from};
ghost use Rattle.ion_text_in.specs.Token as tokens;
ghost use Rattle.ion_text_in.specs.Token.{name};
ghost use Rattle.ion_text_in.specs.Tokens.{as_symbol, overrun_of, token_view, TokenInRange};
ghost use Rattle.ion_text_in.specs.Symbols.{is_annotated, kept_text, prepaid};
ghost use Rattle.ion_text_in.specs.Steps.{annotations_in, as_head, ending, failed_of, giving, held_by, left_to, lent_by, limits_of, naming, opened_in, part_by, share_of, sound-within, source_of, taking, to_come_by, to_come_in, with_colons, Advances, CanAdvance, CanStep, HasEnded, IsGoing, IsSized, IsSound, MayGive, StepsTo};

mod window;

use crate::expected::{
    Expected, after_comma, after_member, at_member, is_colons, is_same, may_come,
};
use crate::first::{First, next_ahead};
use crate::token::{
    Body, FieldName, Symbol, Token, keep_text, lent_field, lent_symbol, next_token,
};
use crate::waiting::shows_item;
use ion_meter::buf::Buf;
use ion_meter::device::{Input, Output};
use ion_meter::fault::{Fault, Reason};
use ion_meter::limits::Limits;
use ion_meter::meter::Meter;
use ion_meter::profile::{Profile, Rules};
use ion_meter::sink::Sink;
use ion_meter::source::Source;
use ion_meter::stack::Stack;
use ion_value::float::Float64;
use ion_value::ion_type::Kind;
use ion_value::item::{Annotation, Annotations, Head, Item};
use ion_value::name::{is_version, is_version_word};
use ion_value::names::{Names, NoNames};
use ion_value::reader::{Fed, RawReader};
use ion_value::writer::ValueWriter;
use std::alloc::Allocator;
use std::mem;

/// What the item is that is lent. The bytes of a text stand beside it.
#[derive(Clone, Copy)]
pub(crate) enum ItemKind {
    Scalar(Body),
    Begin(Kind),
    End,
    Marker,
}

/// What one step gave.
#[derive(Clone, Copy)]
pub(crate) enum StepResult {
    /// The stream has ended.
    Ended,
    /// A comma, a field's name or an annotation was passed over.
    Passed,
    /// An item was taken.
    Item,
}

/// Reads a text one item at a time.
///
/// It holds at most the window of its source, one scalar, one field's name, the annotations of one
/// value, each counted as 16 and its text's length, and 16 for each open container:
/// `4096 + 16 * depth + 3 * scalar` counted bytes at any moment.
#[derive(Drop)]
pub struct TextReader<I: Input, A: Allocator + Copy> {
    source: Source<I, A>,
    // The kinds of the open containers, the innermost last.
    kinds: Stack<Kind, A>,
    expected: Expected,
    // What is read of the next item, or all of the item that is lent: its field and its bytes, its
    // annotations and their texts, the bytes of its scalar, what it is, and the places of its head
    // and of its top-level value.
    field: Option<FieldName>,
    name: Buf<A>,
    annotations: Stack<Annotation, A>,
    texts: Buf<A>,
    text: Buf<A>,
    what: ItemKind,
    place: u64,
    top: u64,
    // Where a comment after the item that is lent begins that does not end.
    unfinished: Option<u64>,
    limits: Rules,
    done: bool,
    failed: Option<Fault>,
}

impl<I: Input, A: Allocator + Copy> TextReader<I, A> {
    /// A reader of the text that this source gives from its present place on, which reads no floats
    /// other than `null.float`.
    pub fn new(meter: &Meter<A>, limits: Limits, source: Source<I, A>) -> TextReader<I, A>
        requires checked { AreChecked limits }
        requires stands { Stands source }
        ensures sound { IsSound result }
        ensures source { (source_of result ≡ source) × (limits_of result ≡ strictly limits) }
        ensures holds { held_by result ≡ 4096 }
        ensures fresh { IsGoing result }
        ensures from { to_come_by I.Input result
            ≡ reading_from limits (cursor I.Input source) }
        ensures reading { source.place ≡ 0
            → to_come_by I.Input result ≡ reading limits (left I.rest source) }
    {
        TextReader::with_profile(meter, limits, Profile::strict(), source)
    }

    /// A reader of the text that this source gives from its present place on, which reads the values
    /// of this profile.
    #[tactic(auto, unfolding(crate::specs::Reading::reading))]
    pub fn with_profile(
        meter: &Meter<A>,
        limits: Limits,
        profile: Profile,
        source: Source<I, A>,
    ) -> TextReader<I, A>
        requires checked { AreChecked limits }
        requires stands { Stands source }
        ensures sound { IsSound result }
        ensures source { (source_of result ≡ source) × (limits_of result ≡ rules limits profile) }
        ensures holds { held_by result ≡ 4096 }
        ensures fresh { IsGoing result }
        ensures from { to_come_by I.Input result
            ≡ reading.reading_from (rules limits profile) (cursor I.Input source) }
        ensures reading { source.place ≡ 0 → to_come_by I.Input result
            ≡ reading.reading (rules limits profile) (left I.rest source) }
    {
        TextReader {
            source,
            kinds: Stack::new(meter),
            expected: Expected::Value,
            field: None,
            name: Buf::new(meter),
            annotations: Stack::new(meter),
            texts: Buf::new(meter),
            text: Buf::new(meter),
            what: ItemKind::Marker,
            place: 0,
            top: 0,
            unfinished: None,
            limits: Rules::new(limits, profile),
            done: false,
            failed: None,
        }
    }

    /// Gives back all that it holds, and hands out the device.
    pub fn release(self, meter: &mut Meter<A>) -> I
        requires { held_by self ≤ meter.old.held }
        ensures device { result ≡ (source_of self).device }
        ensures cost { Shrinks meter.old meter.new (held_by self) }
    {
        let TextReader {
            source,
            kinds,
            name,
            annotations,
            texts,
            text,
            ..
        } = self;
        kinds.release(meter);
        name.release(meter);
        annotations.release(meter);
        texts.release(meter);
        text.release(meter);
        source.release(meter)
    }

    #[inline]
    fn innermost(&self) -> Option<Kind>
        ensures { result ≡ innermost (opened_in self.now) }
    {
        self.kinds.as_slice().last().copied()
    }

    #[inline]
    fn is_annotated(&self) -> bool
        ensures { result ≡ is_annotated (annotations_in self.now) }
    {
        !self.annotations.as_slice().is_empty()
    }

    #[inline]
    fn in_sexp(&self) -> bool
        ensures { result ≡ in_sexp (innermost (opened_in self.now)) }
    {
        matches!(self.innermost(), Some(Kind::Sexp))
    }

    // Where the value at top level begins of which this is the place of a head.
    #[inline]
    fn top_at(&self, place: u64) -> u64
        ensures { result ≡ reading.top_of (opened_in self.now) self.now.top
            (annotations_in self.now) place }
    {
        if self.innermost().is_some() {
            return self.top;
        }
        match self.annotations.as_slice().first() {
            None => place,
            Some(Annotation::Text { place, .. } | Annotation::Id { place, .. }) => *place,
        }
    }

    // Lends a scalar or a version marker whose head begins at a place, after what was read of it.
    #[inline(always)]
    fn give(&mut self, what: ItemKind, place: u64, unfinished: Option<u64>) -> StepResult
        ensures { (m : Counts) → CanStep self.old m → self.old.expected ≡ Expected.Value
            → MayGive self.old what → StepsTo I.Input unfinished (giving self.old what place) 0
            self.old self.new m m (Ok result) }
    {
        self.top = self.top_at(place);
        self.place = place;
        self.what = what;
        self.unfinished = unfinished;
        self.expected = after_member(self.innermost());
        StepResult::Item
    }

    // Whether a symbol is a version's word without quotes and annotations at top level.
    #[tactic(auto, unfolding(crate::specs::Reading::tells_version))]
    #[inline]
    fn tells_version(&self, symbol: Symbol, quoted: bool) -> bool
        ensures { result ≡ reading.tells_version (innermost (opened_in self.now))
            (annotations_in self.now) quoted (as_symbol self.now.text symbol) }
    {
        if quoted || self.innermost().is_some() || self.is_annotated() {
            return false;
        }
        match symbol {
            Symbol::Id(_) => false,
            Symbol::Text => is_version(self.text.as_slice()),
        }
    }

    // Takes the symbol that was read as an annotation; two colons follow.
    fn annotate(
        &mut self,
        symbol: Symbol,
        place: u64,
        meter: &mut Meter<A>,
    ) -> Result<StepResult, Fault>
        requires can_step { CanStep self.old meter.old }
        requires value { self.old.expected ≡ Expected.Value }
        requires colons { 2 ≤ length (lent self.old.source) }
        ensures { StepsTo I.Input None
            (λ _. with_colons self.old symbol place (skip 2 (cursor I.Input self.old.source)))
            (length (kept_text self.old.text symbol))
            self.old self.new meter.old meter.new result }
    {
        let before = 16 * self.annotations.as_slice().len() as u64
            + self.texts.as_slice().len() as u64;
        let text = match symbol {
            Symbol::Id(_) => 0,
            Symbol::Text => self.text.as_slice().len() as u64,
        };
        if self.limits.scalar < before + 16 + text {
            return Err(Fault::Refused(Reason::AnnotationLimit, place));
        }
        self.source.consume(2);
        let annotation = keep_text(&mut self.texts, self.text.as_slice(), symbol, place, meter)?;
        if let Err((_, fault)) = self.annotations.push(meter, annotation) {
            return Err(fault);
        }
        Ok(StepResult::Passed)
    }

    // Takes the symbol that was read where a value may stand: an annotation, a version marker or a
    // value.
    fn symbol(
        &mut self,
        symbol: Symbol,
        quoted: bool,
        place: u64,
        meter: &mut Meter<A>,
    ) -> Result<StepResult, Fault>
        requires can_step { CanStep self.old meter.old }
        requires value { self.old.expected ≡ Expected.Value }
        ensures { StepsTo I.Input None
            (taking self.old place (name quoted (as_symbol self.old.text symbol)))
            (length (kept_text self.old.text symbol))
            self.old self.new meter.old meter.new result }
    {
        let in_sexp = self.in_sexp();
        let ahead = next_ahead(&mut self.source, in_sexp)?;
        if is_colons(ahead.first) {
            return self.annotate(symbol, place, meter);
        }
        if !self.tells_version(symbol, quoted) {
            let scalar = ItemKind::Scalar(Body::Symbol(symbol));
            return Ok(self.give(scalar, place, ahead.unfinished));
        }
        if !is_version_word(self.text.as_slice()) {
            return Err(Fault::Refused(Reason::BadVersion, place));
        }
        Ok(self.give(ItemKind::Marker, place, ahead.unfinished))
    }

    // Takes the symbol that was read as the name of a field: a colon has to follow.
    #[inline(never)]
    fn named(&mut self, symbol: Symbol, place: u64) -> Result<StepResult, Fault>
        requires stands { Stands self.old.source }
        ensures { (m : Counts) → CanStep self.old m → self.old.expected ≡ Expected.Field
            → StepsTo I.Input None (naming self.old symbol place) 0
            self.old self.new m m result }
    {
        let ahead = next_ahead(&mut self.source, false)?;
        let here = self.source.place();
        match ahead.first {
            Some(First::Colon) => {
                self.source.consume(1);
                mem::swap(&mut self.name, &mut self.text);
                self.field = Some(FieldName { symbol, place });
                self.expected = Expected::Value;
                Ok(StepResult::Passed)
            }
            Some(_) => Err(Fault::Refused(Reason::BadToken, here)),
            None => Err(Fault::Refused(Reason::Truncated, ahead.unfinished.unwrap_or(here))),
        }
    }

    // The end of the input, or a comment that does not end: the stream ends where nothing is open
    // and a value may begin.
    fn end(&self, unfinished: Option<u64>) -> Result<StepResult, Fault>
        ensures ended { (t : StepResult) → result ≡ Ok t → t ≡ StepResult.Ended }
        ensures steps { (m : Counts) → CanStep self.now m
            → (I.observable self.now.source.device → left I.rest self.now.source ≡ [])
            → StepsTo I.Input None (λ _. ending self.now unfinished) 0
            self.now self.now m m result }
    {
        match (self.expected, unfinished) {
            (Expected::Value, None) if !self.innermost().is_some() && !self.is_annotated() => {
                Ok(StepResult::Ended)
            }
            _ => {
                let stop = unfinished.unwrap_or(self.source.place());
                Err(Fault::Refused(Reason::Truncated, stop))
            }
        }
    }

    // One token, and what belongs to it: an item, a part of one, a comma, or the end of the stream.
    fn step(&mut self, meter: &mut Meter<A>) -> Result<StepResult, Fault>
        requires { CanStep self.old meter.old }
        ensures steps { StepsTo I.Input None (λ _. to_come_in I.Input self.old) 0
            self.old self.new meter.old meter.new result }
        ensures further { (t : StepResult) → result ≡ Ok t → t ≢ StepResult.Ended
            → left_to self.new < left_to self.old }
    {
        let in_sexp = self.in_sexp();
        let ahead = next_ahead(&mut self.source, in_sexp)?;
        match ahead.first {
            Some(first) => self.part(first, meter),
            None => self.end(ahead.unfinished),
        }
    }

    // Reads the token that so begins, and takes it.
    #[inline(never)]
    fn part(&mut self, first: First, meter: &mut Meter<A>) -> Result<StepResult, Fault>
        requires can_step { CanStep self.old meter.old }
        requires there { width (first_of first) ≤ length (lent self.old.source) }
        ensures steps { StepsTo I.Input None (λ _. part_by I.Input self.old (first_of first)) 0
            self.old self.new meter.old meter.new result }
        ensures further { OnOk result (left_to self.new < left_to self.old) }
    {
        let place = self.source.place();
        if !may_come(self.expected, first) {
            return Err(Fault::Refused(Reason::BadToken, place));
        }
        let token = next_token(&mut self.source, &mut self.text, first, self.limits, meter)?;
        self.take(token, place, meter)
    }

    #[tactic(auto, unfolding(crate::specs::Reading::take))]
    #[inline(always)]
    fn take(&mut self, token: Token, place: u64, meter: &mut Meter<A>) -> Result<StepResult, Fault>
        requires can_step { CanStep self.old meter.old }
        requires range { TokenInRange token }
        ensures { StepsTo I.Input (overrun_of token)
            (taking self.old place (token_view self.old.text place token))
            (prepaid self.old.text token) self.old self.new meter.old meter.new result }
    {
        match (self.expected, token) {
            (_, Token::End(kind)) => self.close(kind, place, meter),
            (Expected::Separator, Token::Comma) => {
                self.expected = after_comma(self.innermost());
                Ok(StepResult::Passed)
            }
            (Expected::Field, Token::Symbol(symbol, _)) => self.named(symbol, place),
            (Expected::Field, Token::String(unfinished)) => match unfinished {
                None => self.named(Symbol::Text, place),
                Some(start) => Err(Fault::Refused(Reason::Truncated, start)),
            },
            (Expected::Value, Token::Plain(body)) => {
                Ok(self.give(ItemKind::Scalar(body), place, None))
            }
            (Expected::Value, Token::String(start)) => {
                Ok(self.give(ItemKind::Scalar(Body::String), place, start))
            }
            (Expected::Value, Token::Operator) => {
                let operator = Body::Symbol(Symbol::Text);
                Ok(self.give(ItemKind::Scalar(operator), place, None))
            }
            (Expected::Value, Token::Symbol(symbol, quoted)) => {
                self.symbol(symbol, quoted, place, meter)
            }
            (Expected::Value, Token::Begin(kind)) => self.open(kind, place, meter),
            (Expected::Value, Token::Float(number)) => self.float(number, place),
            _ => Err(Fault::Refused(Reason::BadToken, place)),
        }
    }

    // Takes a float where a value may stand, where floats are read and it is finite or a word.
    fn float(&mut self, number: Option<Float64>, place: u64) -> Result<StepResult, Fault>
        requires range { IfSome number (λ f. IsFloat (value_of f)) }
        ensures { (m : Counts) → CanStep self.old m → self.old.expected ≡ Expected.Value
            → StepsTo I.Input None
            (taking self.old place (tokens.float (option_map value_of number))) 0
            self.old self.new m m result }
    {
        if !self.limits.floats {
            return Err(Fault::Refused(Reason::Float, place));
        }
        match number {
            Some(number) => Ok(self.give(ItemKind::Scalar(Body::Float(number)), place, None)),
            None => Err(Fault::Refused(Reason::Range, place)),
        }
    }

    // Closes the innermost open container, where it is of this kind: after a field's name and
    // after annotations a value has to come.
    fn close(&mut self, kind: Kind, place: u64, meter: &mut Meter<A>) -> Result<StepResult, Fault>
        requires { CanStep self.old meter.old }
        ensures { StepsTo I.Input None (taking self.old place (tokens.end kind)) 0
            self.old self.new meter.old meter.new result }
    {
        let Some(innermost) = self.innermost() else {
            return Err(Fault::Refused(Reason::BadToken, place));
        };
        if self.field.is_some() || self.is_annotated() || !is_same(innermost, kind) {
            return Err(Fault::Refused(Reason::BadToken, place));
        }
        let _closed = self.kinds.pop(meter);
        self.what = ItemKind::End;
        self.place = place;
        self.expected = after_member(self.innermost());
        Ok(StepResult::Item)
    }

    fn open(&mut self, kind: Kind, place: u64, meter: &mut Meter<A>) -> Result<StepResult, Fault>
        requires can_step { CanStep self.old meter.old }
        requires value { self.old.expected ≡ Expected.Value }
        ensures { StepsTo I.Input None (taking self.old place (tokens.begin kind)) 16
            self.old self.new meter.old meter.new result }
    {
        if u64::from(self.limits.depth) <= self.kinds.as_slice().len() as u64 {
            return Err(Fault::Refused(Reason::DepthLimit, place));
        }
        let top = self.top_at(place);
        if let Err((_, fault)) = self.kinds.push(meter, kind) {
            return Err(fault);
        }
        self.top = top;
        self.what = ItemKind::Begin(kind);
        self.place = place;
        self.expected = at_member(kind);
        Ok(StepResult::Item)
    }

    #[inline]
    fn head(&self) -> Head<'_>
        ensures { raw_head result ≡ as_head self.now.text self.now.place self.now.what }
    {
        match self.what {
            ItemKind::Begin(kind) => Head::Begin(kind),
            ItemKind::End => Head::End,
            ItemKind::Marker => Head::Marker,
            ItemKind::Scalar(body) => match body {
                Body::Null(ion_type) => Head::Null(ion_type),
                Body::Bool(truth) => Head::Bool(truth),
                Body::Int(int) => Head::Int(int),
                Body::Float(float) => Head::Float(float),
                Body::Decimal(decimal) => Head::Decimal(decimal),
                Body::Timestamp(timestamp) => Head::Timestamp(timestamp),
                Body::Symbol(symbol) => {
                    Head::Symbol(lent_symbol(self.text.as_slice(), symbol, self.place))
                }
                Body::String => Head::String(self.text.as_slice()),
                Body::Clob => Head::Clob(self.text.as_slice()),
                Body::Blob => Head::Blob(self.text.as_slice()),
            },
        }
    }

    // Gives back the field and the annotations of the item that was lent.
    #[inline]
    fn forget(&mut self, meter: &mut Meter<A>)
        requires { held_by self.old ≤ meter.old.held }
        ensures cleared { self.new ≡ record self.old {
          field = None;
          annotations = [];
          texts = [];
        } }
        ensures cost { Shrinks meter.old meter.new
            (16 * length self.old.annotations + length self.old.texts) }
    {
        self.field = None;
        self.annotations.clear(meter);
        self.texts.clear(meter);
    }

    // Takes the next item; false at the end of the stream.
    fn advance(&mut self, meter: &mut Meter<A>) -> Result<bool, Fault>
        requires { CanAdvance self.old meter.old }
        ensures { Advances I.Input self.old self.new meter.old meter.new result }
    {
        if let Some(start) = self.unfinished {
            return Err(Fault::Refused(Reason::Truncated, start));
        }
        self.forget(meter);
        'steps: loop {
            match self.step(meter)? {
                StepResult::Ended => return Ok(false),
                StepResult::Item => return Ok(true),
                StepResult::Passed => {}
            }
        }
    }
}

impl<I: Input, A: Allocator + Copy> RawReader<A> for TextReader<I, A> {
    ghost observable = { λ s. I.observable (source_of s).device };

    ghost read_on = { λ s t. IsReadOn I.Input (source_of s).device (source_of t).device };

    ghost reading = { to_come_by I.Input };

    ghost lends = { λ s. Unit {0} };

    ghost current = { lent_by };

    ghost failed = { failed_of };

    ghost ended = { HasEnded };

    ghost opened = { opened_in };

    ghost depth = { λ s. (limits_of s).depth };

    ghost own = { held_by };

    ghost most = { share_of };

    ghost failures = { λ s. I.failure_count (source_of s).device };

    ghost exceeds = { λ s. Exceeds I.Input (source_of s) };

    ghost bytes_left = { λ s. BytesAreLeft I.Input (source_of s) };

    ghost left = { left_to };

    ghost sound = { λ s. IsSound s
        × (HasEnded s → I.observable (source_of s).device
        → (to_come_by I.Input s ≡ Finished) × (left I.rest (source_of s) ≡ [])) };

    fn next(&mut self, meter: &mut Meter<A>) -> Result<bool, Fault> {
        if let Some(fault) = self.failed {
            return Err(fault);
        }
        if self.done {
            return Ok(false);
        }
        let outcome = self.advance(meter);
        match outcome {
            Ok(more) => self.done = !more,
            Err(fault) => self.failed = Some(fault),
        }
        outcome
    }

    #[inline(always)]
    fn item(&self) -> Item<'_, NoNames> {
        Item::new(
            lent_field(self.name.as_slice(), self.field),
            Annotations::new(self.annotations.as_slice(), self.texts.as_slice(), &NoNames),
            self.head(),
            self.place,
            self.top,
        )
    }

    #[inline(always)]
    fn feed<N: Names, W: ValueWriter<O, A>, O: Output>(
        &mut self,
        meter: &mut Meter<A>,
        names: &N,
        writer: &mut W,
        sink: &mut Sink<O, A>,
    ) -> Fed {
        if self.done || self.unfinished.is_some() {
            return Fed {
                values: 0,
                level: self.kinds.as_slice().len() as u32,
            };
        }
        self.forget(meter);
        let values = self.feed_window(meter, names, writer, sink);
        Fed {
            values,
            level: self.kinds.as_slice().len() as u32,
        }
    }

    #[inline(always)]
    fn may_wait(&self) -> bool {
        !shows_item(self.innermost(), self.source.buffer())
    }

    ghost within = { λ s sound. sound-within s sound.0 };

    ghost one_ending = { λ s sound done. sound.0.one_ending done };

    ghost none_left = { λ s sound done observable. rw (sound.1 done observable).1 tt };

    ghost not_read = { λ s. read_on-not I.Input (source_of s).device };

    ghost read_more = { λ s t u first then. read_on-then I.Input (source_of s).device
        (source_of t).device (source_of u).device first then };
}
