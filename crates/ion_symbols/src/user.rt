//! The reader of user values.
ghost use Rattle.std.specs.Prelude.{◌≡◌, ◌≢◌, ◌+◌, ◌*◌, ◌-◌, ◌^◌, ◌<◌, ◌≤◌, ◌↔◌, ℕ, [], length, Option, Some, None, Ok, Err, OnOk, IfOk, true, false};
ghost use Rattle.ion_meter.specs.declared.fault.Reason.{Reason};
ghost use Rattle.ion_meter.specs.declared.fault.Fault.{Fault};
ghost use Rattle.ion_meter.specs.declared.fault.Fault.TheVariants.{Refused};
ghost use Rattle.ion_meter.specs.Limits.{AreChecked};
ghost use Rattle.ion_meter.specs.Counts.{Shrinks};
ghost use Rattle.ion_value.specs.Items.{item_of, raw_head, raw_item};
ghost use Rattle.ion_value.specs.Feeding.{CanTake, Feeds, StaysWell};
ghost use Rattle.ion_value.specs.Reading.{Reading, Finished, Stopped, More};
ghost use Rattle.ion_value.specs.Shares.{Charges, ReadCauses, fault_of};
ghost use Rattle.ion_value.specs.Standing.{is_marker};
ghost use Rattle.ion_symbols.specs.Table.{system, table_cost, text_at};
ghost use Rattle.ion_symbols.specs.Users.{begins_declaration, level_after};
ghost use Rattle.ion_symbols.specs.User.{CanTurn, IsReady, MayCome, UserGives, UserPasses, UserSteps, answered_by, catalog_of, coming_to, lent_by, level_of, limits_of, owned_by, raw_of, share_of, table_of};

use crate::buffer::SymbolBuffer;
use crate::catalog::Catalog;
use crate::checks::check_item;
use crate::item_view::word_in;
use crate::known_text::Word;
use crate::symbols::Symbols;
use ion_meter::device::Output;
use ion_meter::fault::Fault;
use ion_meter::limits::Limits;
use ion_meter::meter::Meter;
use ion_meter::sink::Sink;
use ion_value::ion_type::Kind;
use ion_value::item::{Head, Item};
use ion_value::names::NoNames;
use ion_value::reader::{Fed, RawReader};
use ion_value::writer::ValueWriter;
use std::alloc::Allocator;

/// Reads the user values of a stream one item at a time, their symbols resolved by the table at
/// their place (Ion specification, "Symbols"). Version markers and the declarations of symbol tables
/// are taken in.
///
/// It holds what its raw reader holds and one symbol table: at most the limit on symbol tables
/// between calls, and twice that limit within one. It ends by `release`, which hands the raw reader
/// out.
pub struct UserReader<'c, R: RawReader<A>, A: Allocator + Copy> {
    raw: R,
    symbols: Symbols<'c, A>,
    limits: Limits,
    // How many containers of the present user value are open.
    count: u32,
    failed: Option<Fault>,
}

// What a raw item gave.
#[derive(Clone, Copy)]
enum StepResult {
    // The stream has ended.
    Ended,
    // A marker or a declaration was taken in.
    Passed,
    // An item of a user value was taken.
    Item,
}

// Whether an item begins a declaration.
#[inline]
fn is_declaration<A: Allocator + Copy>(
    symbols: &Symbols<'_, A>,
    count: u32,
    item: &Item<'_, NoNames>,
) -> bool
    ensures { result ≡ begins_declaration symbols.now.table count (raw_item item.now) }
{
    if count != 0 {
        return false;
    }
    let Head::Begin(Kind::Struct) = item.head() else {
        return false;
    };
    match item.annotations().get(0) {
        Some(at) => word_in(symbols, at.sym) == Word::Declaration,
        None => false,
    }
}

// What an item is, its ids as they are.
#[inline]
#[tactic(auto, using(crate::proofs::Checking::plain_head))]
fn head_of<'a>(item: &Item<'a, NoNames>) -> Head<'a>
    ensures { raw_head result ≡ (raw_item item.now).head }
{
    item.head()
}

// Whether an item is a version marker.
#[inline]
fn is_marker(head: Head<'_>) -> bool
    ensures { result ≡ is_marker (raw_head head.entry) }
{
    matches!(head, Head::Marker)
}

// How many containers are open after an item.
#[inline]
fn level_after(count: u32, head: Head<'_>) -> u32
    requires { count < 2 ^ 31 }
    ensures { result ≡ level_after count (raw_head head.entry) }
{
    match head {
        Head::Begin(_) => count + 1,
        Head::End => count.saturating_sub(1),
        _ => count,
    }
}

impl<'c, R: RawReader<A>, A: Allocator + Copy> UserReader<'c, R, A> {
    /// A reader of the user values of what `raw` reads, with the shared tables of this catalogue. It
    /// takes no memory.
    ///
    /// The raw reader stands at top level, and has not failed.
    pub fn new(meter: &Meter<A>, limits: Limits, raw: R, catalog: &'c Catalog<A>) -> Self
        requires limits { AreChecked limits }
        requires sound { R.sound raw }
        requires level { R.opened raw ≡ [] }
        requires fresh { R.failed raw ≡ None }
        ensures ready { IsReady R.sound R.opened R.failed R.ended result }
        ensures raw { (raw_of result ≡ raw) × (answered_by result ≡ None) }
        ensures table { (table_of result ≡ system) × ((catalog_of result ≡ catalog.now)
            × ((limits_of result ≡ limits) × (level_of result ≡ 0))) }
    {
        UserReader {
            raw,
            symbols: Symbols::new(meter, catalog),
            limits,
            count: 0,
            failed: None,
        }
    }

    /// The item that the last call of `next` took, its symbols resolved: an id that is left has no
    /// known text.
    #[inline(always)]
    pub fn item(&self) -> Item<'_, Symbols<'c, A>>
        requires { R.lends (raw_of self.now) }
        ensures { item_of (λ s. text_at s.table) result ≡ lent_by R.current self.now }
    {
        self.raw.item().with_names(&self.symbols)
    }

    // Takes one raw item in.
    #[inline(always)]
    fn turn(&mut self, meter: &mut Meter<A>) -> Result<StepResult, Fault>
        requires can_turn { CanTurn R.RawReader (2 ^ 61 + (2 ^ 59 + 2 ^ 32)) self.old meter.old }
        ensures gives { UserGives R.RawReader StepResult.Item StepResult.Ended
            self.old self.new result }
        ensures passes { result ≡ Ok StepResult.Passed
            → UserPasses R.RawReader self.old self.new }
        ensures falls { IfOk result (λ taken. taken ≢ StepResult.Ended
            → R.left (raw_of self.new) < R.left (raw_of self.old)) }
        ensures causes { ReadCauses (fault_of result) meter.old meter.new
            (R.failures (raw_of self.old)) (R.failures (raw_of self.new))
            (R.exceeds (raw_of self.old)) }
        ensures steps { UserSteps R.RawReader StepResult.Item StepResult.Ended
            self.old self.new meter.old meter.new result }
    {
        match self.raw.next(meter) {
            Err(fault) => return Err(fault),
            Ok(false) => return Ok(StepResult::Ended),
            Ok(true) => {}
        }
        let item = self.raw.item();
        let head = head_of(&item);
        if is_marker(head) {
            self.symbols.reset(meter);
            return Ok(StepResult::Passed);
        }
        if is_declaration(&self.symbols, self.count, &item) {
            if let Err(fault) = check_item(&self.symbols, false, &item) {
                return Err(fault);
            }
            return match SymbolBuffer::read(meter, self.limits, &mut self.raw, &mut self.symbols) {
                Err(fault) => Err(fault),
                Ok(false) => Ok(StepResult::Ended),
                Ok(true) => Ok(StepResult::Passed),
            };
        }
        if let Err(fault) = check_item(&self.symbols, true, &item) {
            return Err(fault);
        }
        self.count = level_after(self.count, head);
        Ok(StepResult::Item)
    }

    // Takes the next item of a user value; false at the end of the stream.
    #[inline(always)]
    fn advance(&mut self, meter: &mut Meter<A>) -> Result<bool, Fault>
        requires can_turn { CanTurn R.RawReader (2 ^ 61) self.old meter.old }
        ensures gives { UserGives R.RawReader true false self.old self.new result }
        ensures falls { result ≡ Ok true → R.left (raw_of self.new) < R.left (raw_of self.old) }
        ensures causes { ReadCauses (fault_of result) meter.old meter.new
            (R.failures (raw_of self.old)) (R.failures (raw_of self.new))
            (R.exceeds (raw_of self.old)) }
        ensures steps { UserSteps R.RawReader true false
            self.old self.new meter.old meter.new result }
    {
        loop {
            match self.turn(meter) {
                Err(fault) => return Err(fault),
                Ok(StepResult::Ended) => return Ok(false),
                Ok(StepResult::Item) => return Ok(true),
                Ok(StepResult::Passed) => {}
            }
        }
    }

    /// Whether there is a next item of a user value, which `item` then lends; false at the end, and
    /// from then on. After a fault each call answers it again and changes nothing.
    ///
    /// The raw reader's faults are passed on. It refuses an id above the table at its place with
    /// `BadSymbol`, a user value's use of an import slot without text with `UnknownSymbol`, and a
    /// declaration with `BadTable` or `SymbolLimit`, each at the first byte of the part that is at
    /// fault.
    #[inline(always)]
    pub fn next(&mut self, meter: &mut Meter<A>) -> Result<bool, Fault>
        requires room { meter.old.held ≤ 2 ^ 61 }
        requires held { owned_by R.own self.old ≤ meter.old.held }
        requires countable { meter.old.refused < 2 ^ 64 - 1 }
        requires ready { IsReady R.sound R.opened R.failed R.ended self.old }
        ensures ready { IsReady R.sound R.opened R.failed R.ended self.new }
        ensures observable { R.observable (raw_of self.new) ↔ R.observable (raw_of self.old) }
        ensures read_on { R.read_on (raw_of self.old) (raw_of self.new) }

        // The items, and how they end.
        ensures gives { R.observable (raw_of self.old) → result ≡ Ok true
            → coming_to R.reading self.old
            ≡ More (lent_by R.current self.new) (coming_to R.reading self.new) }
        ensures ends { R.observable (raw_of self.old) → result ≡ Ok false
            → (coming_to R.reading self.old ≡ Finished)
            × (coming_to R.reading self.new ≡ Finished) }
        ensures refuses { R.observable (raw_of self.old) → answered_by self.old ≡ None
            → (r : Reason) (p : ℕ) → result ≡ Err (Refused r p)
            → coming_to R.reading self.old ≡ Stopped r p }
        ensures lends { result ≡ Ok true → R.lends (raw_of self.new) }
        ensures level { result ≡ Ok true
            → level_of self.new ≡ length (R.opened (raw_of self.new)) }

        // Each step, whether the device's bytes are observable or not.
        ensures comes { result ≡ Ok true → MayCome (R.depth (raw_of self.old))
            (R.opened (raw_of self.old)) (R.opened (raw_of self.new)) (lent_by R.current self.new) }
        ensures falls { result ≡ Ok true → R.left (raw_of self.new) < R.left (raw_of self.old) }
        ensures same { (limits_of self.new ≡ limits_of self.old)
            × (catalog_of self.new ≡ catalog_of self.old) }

        // The end and faults.
        ensures ended { result ≡ Ok false → R.ended (raw_of self.new) }
        ensures stays { answered_by self.old ≡ None → R.ended (raw_of self.old)
            → (result ≡ Ok false) × (self.new ≡ self.old) × (meter.new ≡ meter.old) }
        ensures failed { answered_by self.new ≡ fault_of result }
        ensures again { (f : Fault) → answered_by self.old ≡ Some f
            → (result ≡ Err f) × (self.new ≡ self.old) × (meter.new ≡ meter.old) }
        ensures causes { answered_by self.old ≡ None
            → ReadCauses (fault_of result) meter.old meter.new
            (R.failures (raw_of self.old)) (R.failures (raw_of self.new))
            (R.exceeds (raw_of self.old)) }
        ensures exceeds { R.exceeds (raw_of self.new) ↔ R.exceeds (raw_of self.old) }
        ensures bytes_left { R.bytes_left (raw_of self.new) → R.bytes_left (raw_of self.old) }

        // Memory, on every exit.
        ensures kept { (R.depth (raw_of self.new) ≡ R.depth (raw_of self.old))
            × (R.most (raw_of self.new) ≡ R.most (raw_of self.old)) }
        ensures charges { Charges meter.old meter.new (owned_by R.own self.old)
            (owned_by R.own self.new) (share_of R.most self.old) }
    {
        if let Some(fault) = self.failed {
            return Err(fault);
        }
        let outcome = self.advance(meter);
        if let Err(fault) = outcome {
            self.failed = Some(fault);
        }
        outcome
    }

    /// Hands items of user values to a writer, as many as the raw reader can (`RawReader::feed`). It is
    /// called after an item that `next` took, or after another call of it.
    #[inline(always)]
    pub fn feed<W: ValueWriter<O, A>, O: Output>(
        &mut self,
        meter: &mut Meter<A>,
        writer: &mut W,
        sink: &mut Sink<O, A>,
    ) -> Fed
        requires room { meter.old.held ≤ 2 ^ 61 }
        requires held { owned_by R.own self.old + W.own writer.old ≤ meter.old.held }
        requires countable { meter.old.refused < 2 ^ 64 - 1 }
        requires ready { IsReady R.sound R.opened R.failed R.ended self.old }
        requires fresh { answered_by self.old ≡ None }
        requires level { level_of self.old ≡ length (R.opened (raw_of self.old)) }
        requires writer { CanTake W.ValueWriter (R.depth (raw_of self.old))
            (R.opened (raw_of self.old)) writer.old sink.old }
        ensures ready { IsReady R.sound R.opened R.failed R.ended self.new }
        ensures observable { R.observable (raw_of self.new) ↔ R.observable (raw_of self.old) }
        ensures read_on { R.read_on (raw_of self.old) (raw_of self.new) }

        // The items.
        ensures feeds { Feeds W.ValueWriter (λ item. item) (R.observable (raw_of self.old))
            (record {
              coming = coming_to R.reading self.old;
              opened = R.opened (raw_of self.old);
              writer = writer.old;
              pending = sink.old.pending;
              values = 0;
            })
            (record {
              coming = coming_to R.reading self.new;
              opened = R.opened (raw_of self.new);
              writer = writer.new;
              pending = sink.new.pending;
              values = result.values;
            }) }
        ensures level { (level_of self.new ≡ length (R.opened (raw_of self.new)))
            × (result.level ≡ length (R.opened (raw_of self.new))) }
        ensures falls { result.values + R.left (raw_of self.new) ≤ R.left (raw_of self.old) }

        // What stays, and memory.
        ensures same { (limits_of self.new ≡ limits_of self.old)
            × (catalog_of self.new ≡ catalog_of self.old)
            × (answered_by self.new ≡ answered_by self.old) }
        ensures kept { (R.depth (raw_of self.new) ≡ R.depth (raw_of self.old))
            × (R.most (raw_of self.new) ≡ R.most (raw_of self.old))
            × (R.failures (raw_of self.new) ≡ R.failures (raw_of self.old)) }
        ensures ended { R.ended (raw_of self.old) → R.ended (raw_of self.new) }
        ensures exceeds { R.exceeds (raw_of self.new) ↔ R.exceeds (raw_of self.old) }
        ensures bytes_left { R.bytes_left (raw_of self.new) → R.bytes_left (raw_of self.old) }
        ensures writer { StaysWell W.ValueWriter writer.old writer.new sink.old sink.new
            meter.old meter.new }
        ensures charges { Charges meter.old meter.new
            (owned_by R.own self.old + W.own writer.old)
            (owned_by R.own self.new + W.own writer.new)
            (share_of R.most self.old + W.most writer.old) }
    {
        let fed = self.raw.feed(meter, &self.symbols, writer, sink);
        self.count = fed.level;
        fed
    }

    /// Whether the next call of `next` may have to wait for the device, as `RawReader::may_wait` says
    /// it.
    #[inline(always)]
    pub fn may_wait(&self) -> bool {
        self.raw.may_wait()
    }

    /// Gives the symbol table back, and hands the raw reader out.
    pub fn release(self, meter: &mut Meter<A>) -> R
        requires { table_cost (table_of self) ≤ meter.old.held }
        ensures raw { result ≡ raw_of self.entry }
        ensures cost { Shrinks meter.old meter.new (table_cost (table_of self.entry)) }
    {
        let UserReader {
            raw,
            symbols,
            limits: _,
            count: _,
            failed: _,
        } = self;
        symbols.release(meter);
        raw
    }
}
