//! The reader of user values and any writer, joined by their laws alone.
ghost use Rattle.std.specs.Prelude.{◌≡◌, ◌↔◌, ℕ, ◌+◌, ◌-◌, ◌^◌, ◌<◌, ◌≤◌, List, [], length, None, OnOk, IfErr};
ghost use Rattle.ion_meter.specs.Windows.{so_far, write_failures_in, Puts};
ghost use Rattle.ion_value.specs.declared.ion_type.Kind.{Kind};
ghost use Rattle.ion_value.specs.Items.{raw_head};
ghost use Rattle.ion_value.specs.Standing.{open_after};
ghost use Rattle.ion_value.specs.Feeding.{CanTake};
ghost use Rattle.ion_value.specs.Reading.{items_of};
ghost use Rattle.ion_value.specs.Shares.{Charges};
ghost use Rattle.ion_value.specs.Outcome.{one_if_closed, verdict_after, output_after};
ghost use Rattle.ion_symbols.specs.User.{IsReady, answered_by, coming_to, level_of, owned_by};
ghost use Rattle.ion_symbols.specs.User.{raw_of, share_of};
ghost use Rattle.ion_transcode.specs.Calls.{Causes, HandsOn, HasRoom, IsAtStart, Joined, MayWrite};
ghost use Rattle.ion_transcode.specs.Calls.{PutsOutput, SaysVerdict};

use ion_meter::device::Output;
use ion_meter::fault::Fault;
use ion_meter::meter::Meter;
use ion_meter::sink::Sink;
use ion_meter::source::WINDOW;
use ion_symbols::user::UserReader;
use ion_value::item::Head;
use ion_value::reader::RawReader;
use ion_value::writer::ValueWriter;
use std::alloc::Allocator;

// The window on the output is nearly full where it has less room than this: the longest line's
// blanks, which are one copy, and a short scalar.
const NEARLY_FULL: usize = 320;

// How far a stream was copied.
#[derive(Clone, Copy)]
struct Copied {
    // How many containers are open.
    level: u32,
    // How many values at top level have ended.
    values: u64,
    // How many had ended when all that was put was written last.
    flushed: u64,
}

// How many containers are open after an item.
#[inline]
fn depth_after(level: u32, head: &Head<'_>) -> u32
    requires { level ≤ 65535 }
    ensures { (kinds : List Kind) → length kinds ≡ level
        → length (open_after kinds (raw_head head.now)) ≡ result }
{
    match *head {
        Head::Begin(_) => level + 1,
        Head::End => level.saturating_sub(1),
        _ => level,
    }
}

// One value more where no container is open.
#[inline]
fn values_after(values: u64, level: u32) -> u64
    requires { values < 2 ^ 64 - 1 }
    ensures { (kinds : List Kind) → length kinds ≡ level
        → result ≡ values + one_if_closed kinds }
{
    if level == 0 { values + 1 } else { values }
}

// Writes all that was put, where `is_full` says that the window is nearly full, or where a value
// has ended since that was done last and the reader may have to wait. It answers how many values
// had ended when it was done last. Where nothing is to be written, as of a check, the reader is not
// asked.
#[inline]
fn flush_ended<R: RawReader<A>, O: Output, A: Allocator + Copy>(
    is_full: bool,
    values: u64,
    flushed: u64,
    reader: &UserReader<'_, R, A>,
    sink: &mut Sink<O, A>,
) -> Result<u64, Fault>
    requires well { sink.old.fault ≡ None }
    ensures puts { Puts O.written O.observable sink.old sink.new [] }
    ensures same { OnOk result (O.observable sink.old.device
        → so_far O.written sink.new ≡ so_far O.written sink.old) }
    ensures well { OnOk result (sink.new.fault ≡ None) }
    ensures cause { IfErr result (λ f. f ≡ Fault.WriteFault) }
    ensures count { O.failure_count sink.new.device
        ≡ O.failure_count sink.old.device + write_failures_in None result }
{
    if !is_full && (values == flushed || sink.room() == WINDOW || !reader.may_wait()) {
        return Ok(flushed);
    }
    match sink.flush() {
        Err(fault) => Err(fault),
        Ok(()) => Ok(values),
    }
}

// Lets the reader hand on what lies whole in its window, and again each time that this nearly
// filled the window on the output, which is written first: the item that it has no room for would
// go by the slow path, once for each window. The number of turns serves only to end them.
#[inline]
fn feed_windows<R: RawReader<A>, W: ValueWriter<O, A>, O: Output, A: Allocator + Copy>(
    meter: &mut Meter<A>,
    reader: &mut UserReader<'_, R, A>,
    writer: &mut W,
    sink: &mut Sink<O, A>,
    start: Copied,
) -> Result<Copied, Fault>
    requires room { HasRoom (2 ^ 59 + (owned_by R.own reader.old + W.own writer.old))
        (owned_by R.own reader.old + W.own writer.old) meter.old }
    requires ready { IsReady R.sound R.opened R.failed R.ended reader.old }
    requires fresh { answered_by reader.old ≡ None }
    requires level { level_of reader.old ≡ length (R.opened (raw_of reader.old)) }
    requires writer { CanTake W.ValueWriter (R.depth (raw_of reader.old))
        (R.opened (raw_of reader.old)) writer.old sink.old }
    requires start { start.level ≡ length (R.opened (raw_of reader.old)) }
    requires left { start.values + R.left (raw_of reader.old) < 2 ^ 64 }
    ensures { HandsOn R.RawReader W.ValueWriter O.Output start result
        (record { reader = reader.old; writer = writer.old; sink = sink.old; meter = meter.old })
        (record { reader = reader.new; writer = writer.new; sink = sink.new; meter = meter.new }) }
{
    let mut at = start;
    'windows: for _ in 0..64u32 {
        let fed = reader.feed(meter, writer, sink);
        let values = at.values + fed.values;
        let is_full = sink.room() < NEARLY_FULL;
        match flush_ended(is_full, values, at.flushed, reader, sink) {
            Err(fault) => return Err(fault),
            Ok(flushed) => {
                at = Copied {
                    level: fed.level,
                    values,
                    flushed,
                }
            }
        }
        if !is_full {
            return Ok(at);
        }
    }
    Ok(at)
}

/// Puts each item of the user values that are read, and counts the values at top level.
///
/// After each item that is read and put one at a time, the reader hands on what lies whole in its
/// window; where that nearly fills the window on the output, this is written, and the reader hands
/// on more. Where the reader may have to wait for its device, what was put is written first, if a
/// value at top level has ended since it was written last.
pub fn copy_items<R: RawReader<A>, W: ValueWriter<O, A>, O: Output, A: Allocator + Copy>(
    meter: &mut Meter<A>,
    reader: &mut UserReader<'_, R, A>,
    writer: &mut W,
    sink: &mut Sink<O, A>,
) -> Result<u64, Fault>
    requires room { HasRoom (2 ^ 59) (owned_by R.own reader.old + W.own writer.old) meter.old }
    requires reader { IsAtStart R.RawReader reader.old }
    requires writer { MayWrite W.ValueWriter (R.depth reader.old.raw) writer.old sink.old }
    ensures says { R.observable reader.old.raw
        → SaysVerdict (verdict_after (W.refusal (W.limits writer.old)) []
        (coming_to R.reading reader.old)) result }
    ensures puts { R.observable reader.old.raw → O.observable sink.old.device
        → PutsOutput (output_after (W.puts (W.limits writer.old))
        (W.refusal (W.limits writer.old)) [] (coming_to R.reading reader.old)) result
        (so_far O.written sink.old) (so_far O.written sink.new)
        (O.written sink.new.device) }
    ensures stands { R.observable reader.old.raw → OnOk result
        (W.stands writer.new (items_of (coming_to R.reading reader.old))) }
    ensures causes { Causes result meter.old meter.new
        (R.failures reader.old.raw) (R.failures reader.new.raw) (R.exceeds reader.old.raw)
        O.Output sink.old.device sink.new.device }
    ensures bytes { OnOk result (R.bytes_left reader.old.raw) }
    ensures input { R.observable reader.new.raw ↔ R.observable reader.old.raw }
    ensures taken { R.read_on reader.old.raw reader.new.raw }
    ensures joined { Joined R.RawReader W.ValueWriter reader.old reader.new
        writer.old writer.new result sink.new.fault }
    ensures charges { Charges meter.old meter.new
        (owned_by R.own reader.old + W.own writer.old)
        (owned_by R.own reader.new + W.own writer.new)
        (share_of R.most reader.old + W.most writer.old) }
{
    writer.begin(sink)?;
    let mut at = Copied {
        level: 0,
        values: 0,
        flushed: 0,
    };
    'items: while reader.next(meter)? {
        let item = reader.item();
        let head = item.head();
        if let Err(fault) = writer.item(meter, sink, &item) {
            return Err(fault);
        }
        let level = depth_after(at.level, &head);
        let start = Copied {
            level,
            values: values_after(at.values, level),
            flushed: at.flushed,
        };
        match feed_windows(meter, reader, writer, sink, start) {
            Err(fault) => return Err(fault),
            Ok(now) => at = now,
        }
    }
    Ok(at.values)
}
