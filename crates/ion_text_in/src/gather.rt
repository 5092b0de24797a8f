//! Tokens that the end of a window cuts: their bytes are gathered into a buffer.
ghost use Rattle.std.specs.Prelude.{◌≡◌, ◌+◌, ◌≤◌, ◌<◌, ◌++◌, [], ◌*◌, ℕ, Some, Ok, Err, length, take, OnOk, IfOk, IfErr};
ghost use Rattle.ion_meter.specs.Sources.{Stands};
ghost use Rattle.ion_meter.specs.Windows.{left, lent, Extends};
ghost use Rattle.ion_value.specs.Calls.{AnswersBy, CanRead, Reads, ReadsInto, passed_over};
ghost use Rattle.ion_value.specs.Shares.{GrowsWithin};
ghost use Rattle.ion_text_in.specs.Places.{run_of};
ghost use Rattle.ion_text_in.specs.Token.{bytes_of};
ghost use Rattle.ion_text_in.specs.Views.{spelled};
ghost use Rattle.ion_text_in.specs.Runs.{goes_on, opens_comment, GoesOver, with_run, CanAppend, IsAppended, IsOver};

use crate::run::{Run, run_extent};
use ion_meter::buf::Buf;
use ion_meter::device::Input;
use ion_meter::fault::{Fault, Reason};
use ion_meter::meter::Meter;
use ion_meter::profile::Rules;
use ion_meter::source::Source;
use std::alloc::Allocator;

/// Adds so many bytes of the window to the text of a token that begins at a place, and passes over
/// them.
///
/// Answers `ScalarLimit` where the text would then have more bytes than the limit, and adds none.
pub(crate) fn append<I: Input, A: Allocator + Copy>(
    source: &mut Source<I, A>,
    text: &mut Buf<A>,
    count: usize,
    limits: Rules,
    place: u64,
    meter: &mut Meter<A>,
) -> Result<(), Fault>
    requires can_append { CanAppend limits source.old text.old meter.old }
    requires there { count ≤ length (lent source.old) }
    ensures appends { OnOk result (IsAppended text.old text.new source.old source.new count) }
    ensures over { (reason : Reason) (at : ℕ) → result ≡ Err (Fault.Refused reason at)
        → IsOver limits.scalar place (length text.old) count reason at }
    ensures reads { ReadsInto I.Input source.old source.new meter.old meter.new
        (length text.old) (length text.new) limits.scalar result }
    ensures goes { GrowsWithin meter.old meter.new (length text.old) (length text.new)
        (8 * passed_over source.old source.new) }
{
    if limits.scalar - (text.as_slice().len() as u64) < count as u64 {
        return Err(Fault::Refused(Reason::ScalarLimit, place));
    }
    let bytes = &source.buffer()[..count];
    text.extend(meter, bytes)?;
    source.consume(count);
    Ok(())
}

/// Makes so many bytes of the window the text, and passes over them.
#[inline(always)]
pub(crate) fn copy<I: Input, A: Allocator + Copy>(
    source: &mut Source<I, A>,
    text: &mut Buf<A>,
    count: usize,
    limits: Rules,
    meter: &mut Meter<A>,
) -> Result<(), Fault>
    requires can_read { CanRead limits limits.scalar source.old text.old meter.old }
    requires there { count ≤ length (lent source.old) }
    requires small { count ≤ limits.scalar }
    ensures copies { OnOk result (IsAppended [] text.new source.old source.new count) }
    ensures memory { IfErr result (λ f. f ≡ Fault.Memory) }
    ensures reads { ReadsInto I.Input source.old source.new meter.old meter.new
        (length text.old) (length text.new) limits.scalar result }
    ensures goes { GrowsWithin meter.old meter.new (length text.old) (length text.new)
        (8 * passed_over source.old source.new) }
{
    text.clear(meter);
    text.extend(meter, &source.buffer()[..count])?;
    source.consume(count);
    Ok(())
}

// How many bytes of the window go on with a token, where some are read if there are none yet, and
// where a slash that may begin a comment is the last; 0 where the token ends.
fn next_part<I: Input, A: Allocator + Copy>(
    source: &mut Source<I, A>,
    run: Run,
) -> Result<usize, Fault>
    requires stands { Stands source.old }
    ensures kept { Extends I.Input source.old source.new }
    ensures there { IfOk result (λ n. n ≤ length (lent source.new)) }
    ensures goes { I.observable source.old.device
        → IfOk result (GoesOver (goes_on run) (left I.rest source.new)) }
    ensures ends { I.observable source.old.device → result ≡ Ok 0
        → run_of (goes_on run) (left I.rest source.new) ≡ ([], left I.rest source.new) }
    ensures plain { (reason : Reason) (at : ℕ) → result ≡ Err (Fault.Refused reason at) → ⊥ }
    ensures reads { Reads I.Input source.old source.new result }
{
    let Some(_) = source.peek(0)? else {
        return Ok(0);
    };
    let extent = run_extent(run, source.buffer());
    if extent.ended || extent.len > 0 {
        return Ok(extent.len);
    }
    if opens_comment(source.peek(1)?) {
        return Ok(0);
    }
    Ok(1)
}

// Whether a slash before this byte begins a comment.
fn opens_comment(next: Option<u8>) -> bool
    ensures { result ≡ opens_comment next }
{
    matches!(next, Some(b'/' | b'*'))
}

/// Adds the bytes that go on with a token that begins at a place to its text.
///
/// Answers `ScalarLimit` where the text would have more bytes than the limit.
pub(crate) fn gather<I: Input, A: Allocator + Copy>(
    source: &mut Source<I, A>,
    text: &mut Buf<A>,
    run: Run,
    limits: Rules,
    place: u64,
    meter: &mut Meter<A>,
) -> Result<(), Fault>
    requires can_append { CanAppend limits source.old text.old meter.old }
    ensures gives { AnswersBy I.Input (λ _. text.new) source.old source.new place result
        (with_run run (Some limits.scalar) text.old) }
    ensures reads { ReadsInto I.Input source.old source.new meter.old meter.new
        (length text.old) (length text.new) limits.scalar result }
    ensures goes { GrowsWithin meter.old meter.new (length text.old) (length text.new)
        (8 * passed_over source.old source.new) }
{
    'parts: loop {
        let count = next_part(source, run)?;
        if count == 0 {
            return Ok(());
        }
        append(source, text, count, limits, place, meter)?;
    }
}

/// Gathers the bytes of the token that begins here.
///
/// Answers `ScalarLimit` where it has more bytes than the limit.
#[cold]
#[inline(never)]
pub(crate) fn gather_token<I: Input, A: Allocator + Copy>(
    source: &mut Source<I, A>,
    text: &mut Buf<A>,
    run: Run,
    limits: Rules,
    meter: &mut Meter<A>,
) -> Result<(), Fault>
    requires can_read { CanRead limits limits.scalar source.old text.old meter.old }
    requires there { 1 ≤ length (lent source.old) }
    ensures gives { AnswersBy I.Input (λ _. text.new) source.old source.new source.old.place result
        (spelled (bytes_of (goes_on run)) (Some limits.scalar)) }
    ensures further { OnOk result (source.old.place < source.new.place) }
    ensures reads { ReadsInto I.Input source.old source.new meter.old meter.new
        (length text.old) (length text.new) limits.scalar result }
    ensures goes { GrowsWithin meter.old meter.new (length text.old) (length text.new)
        (8 * passed_over source.old source.new) }
    ensures fresh { OnOk result (length text.new ≤ 8 * passed_over source.old source.new) }
{
    let place = source.place();
    text.clear(meter);
    append(source, text, 1, limits, place, meter)?;
    gather(source, text, run, limits, place, meter)
}
