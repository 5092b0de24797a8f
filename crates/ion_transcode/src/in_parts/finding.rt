//! Where a part may be cut: a guess, of which nothing is proved. What is counted of the part decides.
ghost use Rattle.std.specs.Prelude.{◌≡◌, ◌+◌, ◌*◌, ◌^◌, ◌<◌, ◌≢◌, [], Err, IfErr, None, ⊤};
ghost use Rattle.ion_meter.specs.declared.fault.Fault.TheVariants.{Memory};
ghost use Rattle.ion_meter.specs.Limits.{AreChecked};
ghost use Rattle.ion_value.specs.Shares.{Charges};
ghost use Rattle.std.proofs.Common.{arith, refl};
ghost use Rattle.ion_transcode.specs.Bound.{share_as};
ghost use Rattle.ion_transcode.specs.Calls.{HasRoom, IsFresh};
ghost use Rattle.ion_transcode.specs.PartCalls.{GivesAllBack};

use super::counter::{OneName, is_firm};
use super::counting::Reads;
use super::cuts::is_cut;
use super::pieces::Pieces;
use crate::nothing::{NoOutput, NoWriter};
use crate::to::Form;
use ion_binary::reader::BinReader;
use ion_meter::device::Output;
use ion_meter::fault::{Fault, Reason};
use ion_meter::limits::Limits;
use ion_meter::meter::Meter;
use ion_meter::sink::Sink;
use ion_meter::source::Source;
use ion_text_in::reader::TextReader;
use ion_value::ion_type::Kind;
use ion_value::item::{Head, Item, Sym};
use ion_value::names::{Names, NoNames};
use ion_value::plain_item::PlainItem;
use ion_value::reader::RawReader;
use ion_value::writer::ValueWriter;
use std::alloc::Allocator;

/// What an item at top level begins, as far as it can be told without a symbol table.
#[derive(Clone, Copy, PartialEq, Eq)]
enum Sort {
    Marker,
    Declaration,
    Value,
}

/// Whether a symbol is surely `$ion_symbol_table`.
fn is_declared(sym: Sym<'_>) -> bool {
    match sym {
        Sym::Text(text) => text == b"$ion_symbol_table".as_slice(),
        Sym::Id(id) => id == 3,
    }
}

/// What an item at top level begins.
fn sort_of(item: &Item<'_, NoNames>) -> Sort {
    match item.head() {
        Head::Marker => Sort::Marker,
        Head::Begin(Kind::Struct) => match item.annotations().get(0) {
            Some(at) if is_declared(at.sym) => Sort::Declaration,
            _ => Sort::Value,
        },
        _ => Sort::Value,
    }
}

/// Whether a stretch whose first value is of one sort may have one of another behind it. Before a
/// declaration, which is kept, what has no value is taken alone, as comments and pads.
fn goes_on(stretch: Option<Sort>, sort: Sort, begins: bool) -> bool {
    match stretch {
        None => begins || sort != Sort::Declaration,
        Some(Sort::Declaration) => sort == Sort::Declaration,
        Some(_) => sort == Sort::Value,
    }
}

/// Where the line begins on which only blanks stand before a place; 0 where others do too, as on the
/// first line.
fn line_of(bytes: &[u8], place: usize) -> usize {
    let mut at = place.min(bytes.len());
    while at > 0 {
        match bytes[at - 1] {
            b'\n' => return at,
            b' ' | b'\t' | b'\r' => at -= 1,
            _ => return 0,
        }
    }
    0
}

/// Where bytes may be cut before what begins at a place, behind an item that is firm or not; else 0.
fn cut_at(form: Form, is_firm: bool, bytes: &[u8], place: usize) -> usize {
    let cut = match form {
        Form::Binary => place.min(bytes.len()),
        Form::Text => line_of(bytes, place).min(bytes.len()),
    };
    let (part, next) = bytes.split_at(cut);
    if is_cut(form, is_firm, part, next) {
        cut
    } else {
        0
    }
}

/// The later one of two cuts, if it is within so many bytes or there is no other.
fn with_cut(cut: usize, later: usize, most: usize) -> usize {
    if cut > 0 && later > most {
        cut
    } else {
        cut.max(later)
    }
}

/// How many containers are open after an item.
fn depth_after(level: u32, head: &Head<'_>) -> u32 {
    match *head {
        Head::Begin(_) => level.saturating_add(1),
        Head::End => level.saturating_sub(1),
        _ => level,
    }
}

/// How far a place stands behind the kept bytes.
fn in_part(place: u64, kept: usize) -> usize {
    (place.min(1 << 48) as usize).saturating_sub(kept)
}

/// What is searched: bytes of a form behind so many kept ones, for a cut within so many of them.
#[derive(Clone, Copy)]
struct Sought<'p> {
    form: Form,
    kept: usize,
    bytes: &'p [u8],
    most: usize,
}

/// Notes where a part behind kept bytes may be cut, as a writer that puts nothing of the items.
#[derive(Drop)]
struct Finder<'p> {
    writer: NoWriter,
    sought: Sought<'p>,
    // Behind the longest stretch so far; 0 where no place was found.
    cut: usize,
    // Of what sort the first value behind the kept bytes is.
    stretch: Option<Sort>,
    // How many containers are open.
    level: u32,
    // The last item ends with its last token.
    is_firm: bool,
}

impl<'p> Finder<'p> {
    /// Nothing is noted.
    fn new(limits: Limits, sought: Sought<'p>) -> Finder<'p>
        requires checked { AreChecked limits }
        ensures limits { result.writer.limits ≡ limits }
        ensures well { result.writer.failed ≡ None }
    {
        Finder {
            writer: NoWriter::new(limits),
            sought,
            cut: 0,
            stretch: None,
            level: 0,
            is_firm: true,
        }
    }

    /// The cut, where the last item ends before a place.
    fn cut_before(&self, place: usize) -> usize {
        let Sought {
            form,
            kept: _,
            bytes,
            most,
        } = self.sought;
        with_cut(self.cut, cut_at(form, self.is_firm, bytes, place), most)
    }

    /// Whether there is a cut, and a value at top level begins past as many bytes as are asked for.
    fn is_enough(&self, top: u64) -> bool {
        self.cut > 0 && in_part(top, self.sought.kept) > self.sought.most
    }

    /// Notes an item of a sort, whose value at top level begins at a place, or answers false where the
    /// stretch ends before it.
    #[inline]
    fn note(&mut self, top: u64, sort: Sort, head: &Head<'_>) -> bool
        ensures { self.new.writer ≡ self.old.writer }
    {
        if self.level == 0 && top >= self.sought.kept as u64 {
            let is_enough = self.is_enough(top);
            self.cut = self.cut_before(in_part(top, self.sought.kept));
            if is_enough || !goes_on(self.stretch, sort, self.cut == 0) {
                return false;
            }
            if self.stretch.is_none() {
                self.stretch = Some(sort);
            }
        }
        self.level = depth_after(self.level, head);
        self.is_firm = is_firm(head);
        true
    }

    /// Where the part may be cut, where no item follows.
    fn cut_at_end(&self) -> usize {
        self.cut_before(self.sought.bytes.len())
    }

    /// Where it may be cut, where what follows is refused so.
    fn cut_before_fault(&self, fault: Fault) -> usize {
        match fault {
            Fault::Refused(Reason::Truncated, place)
                if self.level == 0 && self.sought.form == Form::Binary => {
                self.cut_before(in_part(place, self.sought.kept))
            }
            _ => self.cut,
        }
    }
}

impl<O: Output, A: Allocator + Copy> ValueWriter<O, A> for Finder<'_> {
    ghost puts = { λ limits path. [] };

    ghost adds = { λ limits path item. [] };

    ghost refusal = { λ limits path item. None };

    ghost limits = { λ w. w.writer.limits };

    ghost is_new = { λ w. w.writer.failed ≡ None };

    ghost stands = { λ w path. w.writer.failed ≡ None };

    ghost failed = { λ w. w.writer.failed };

    ghost own = { λ w. 0 };

    ghost most = { λ w. 0 };

    ghost sound = { λ w. ⊤ };

    fn begin(&mut self, sink: &mut Sink<O, A>) -> Result<(), Fault> {
        self.writer.begin(sink)
    }

    fn item<N: Names>(
        &mut self,
        meter: &mut Meter<A>,
        sink: &mut Sink<O, A>,
        item: &Item<'_, N>,
    ) -> Result<(), Fault> {
        self.writer.item(meter, sink, item)
    }

    // It declines a value at top level that ends the stretch. What is plain is no declaration.
    #[inline(always)]
    fn take_plain(
        &mut self,
        _meter: &mut Meter<A>,
        _sink: &mut Sink<O, A>,
        item: PlainItem<'_, '_>,
    ) -> bool {
        let ends = self.stretch == Some(Sort::Declaration) || self.is_enough(item.top);
        if self.level == 0 && ends {
            return false;
        }
        let _ = self.note(item.top, Sort::Value, &item.head);
        true
    }

    ghost grows = { λ limits path item none. refl };

    ghost silent = { λ limits path item why e. absurd (Prim.cc e) };

    ghost within = { λ s sound. record { share = Prim.omega arith; small = Prim.omega arith } };
}

/// Reads on until a stretch of values at top level ends, or is long enough.
fn search<R: RawReader<A>, A: Allocator + Copy>(
    meter: &mut Meter<A>,
    raw: &mut R,
    finder: &mut Finder<'_>,
    sink: &mut Sink<NoOutput, A>,
) -> Result<usize, Fault>
    requires room { HasRoom (2 ^ 59) (R.own raw.old) meter.old }
    requires reader { IsFresh R.RawReader finder.old.writer.limits raw.old }
    requires finder { finder.old.writer.failed ≡ None }
    requires sink { sink.old.fault ≡ None }
    ensures memory { result ≡ Err Memory → meter.old.refused < meter.new.refused }
    ensures counted { result ≢ Err Memory → meter.new.refused ≡ meter.old.refused }
    ensures only_memory { IfErr result (λ f. f ≡ Memory) }
    ensures charges { Charges meter.old meter.new (R.own raw.old) (R.own raw.new)
        (R.most raw.old) }
{
    'items: loop {
        match raw.next(meter) {
            Err(Fault::Memory) => return Err(Fault::Memory),
            Err(fault) => return Ok(finder.cut_before_fault(fault)),
            Ok(false) => return Ok(finder.cut_at_end()),
            Ok(true) => {
                let item = raw.item();
                if !finder.note(item.top(), sort_of(&item), &item.head()) {
                    return Ok(finder.cut);
                }
                raw.feed(meter, &OneName, finder, sink);
            }
        }
    }
}

/// Where a part behind kept bytes may be cut, with a window on an output that takes nothing.
fn find_in_form<A: Allocator + Copy>(
    meter: &mut Meter<A>,
    reads: Reads,
    kept: &[u8],
    bytes: &[u8],
    most: usize,
    sink: &mut Sink<NoOutput, A>,
) -> Result<usize, Fault>
    requires checked { AreChecked reads.limits }
    requires room { HasRoom (2 ^ 49) 0 meter.old }
    requires sink { sink.old.fault ≡ None }
    ensures gives_back { GivesAllBack (4096 + share_as reads.limits None) result
        meter.old meter.new }
    ensures only_memory { IfErr result (λ f. f ≡ Memory) }
{
    let sought = Sought {
        form: reads.form,
        kept: kept.len(),
        bytes,
        most,
    };
    let mut finder = Finder::new(reads.limits, sought);
    let source = match Source::new(meter, reads.limits, Pieces::new(kept, bytes)) {
        Ok(source) => source,
        Err(_) => return Err(Fault::Memory),
    };
    match reads.form {
        Form::Binary => {
            let mut raw = BinReader::with_profile(meter, reads.limits, reads.profile, source);
            let outcome = search(meter, &mut raw, &mut finder, sink);
            raw.release(meter);
            outcome
        }
        Form::Text => {
            let mut raw = TextReader::with_profile(meter, reads.limits, reads.profile, source);
            let outcome = search(meter, &mut raw, &mut finder, sink);
            raw.release(meter);
            outcome
        }
    }
}

/// Where a part behind kept bytes may be cut: behind the longest stretch that is found within so many
/// bytes, or behind what stands before its first cut; 0 where none is found.
pub(crate) fn find<A: Allocator + Copy>(
    meter: &mut Meter<A>,
    reads: Reads,
    kept: &[u8],
    bytes: &[u8],
    most: usize,
) -> Result<usize, Fault>
    requires checked { AreChecked reads.limits }
    requires room { HasRoom (2 ^ 48) 0 meter.old }
    ensures gives_back { GivesAllBack (8192 + share_as reads.limits None) result
        meter.old meter.new }
    ensures only_memory { IfErr result (λ f. f ≡ Memory) }
{
    let mut sink = match Sink::new(meter, NoOutput) {
        Ok(sink) => sink,
        Err(_) => return Err(Fault::Memory),
    };
    let outcome = find_in_form(meter, reads, kept, bytes, most, &mut sink);
    sink.release(meter);
    outcome
}
