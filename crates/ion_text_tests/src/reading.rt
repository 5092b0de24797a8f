//! Texts read by the reader, in whatever pieces they come, and how they end.
ghost use Rattle.std.specs.Prelude.{◌≡◌, ◌≤◌, Ok, true};

mod blanks;
mod drawn;
mod floats;
mod items;
mod laws;
mod lobs;
mod long;
mod pieces;
mod refusals;
mod telling;
mod texts;
mod tokens;

use ion_meter::fault::Fault;
use ion_meter::limits::Limits;
use ion_meter::meter::Meter;
use ion_meter::profile::Profile;
use ion_meter::source::Source;
use ion_meter::stream::FromRead;
use ion_text_in::reader::TextReader;
use ion_value::reader::RawReader;
use pieces::Pieces;
use std::alloc::{Allocator, Global};
use std::process::Abort;
use std::test::Fail;
use telling::{tell_ending, tell_item};

/// The limit on scalars, a text, and the words of its items and of how it ends.
type Row = (u64, &'static [u8], &'static str);

/// More items than any text here has.
const MANY: u32 = 1_000;

/// More bytes than any text here has.
const WHOLE: usize = 1 << 20;

/// The limits where nothing else is said.
const LIMITS: Limits = Limits {
    depth: 8,
    scalar: 4_096,
    symbols: 4_096,
    value: 4_096,
    input: 1_048_576,
};

/// A reader, and the meter of what it holds.
#[derive(Drop)]
struct Running<R: RawReader<A>, A: Allocator + Copy> {
    reader: R,
    meter: Meter<A>,
}

impl<R: RawReader<A>, A: Allocator + Copy> Running<R, A> {
    /// Takes the next item.
    fn next(&mut self, rt: &impl Abort) -> Result<bool, Fault>
        requires sound { R.sound self.old.reader }
        requires held { R.own self.old.reader ≤ self.old.meter.held }
        ensures sound { R.sound self.new.reader }
        ensures held { R.own self.new.reader ≤ self.new.meter.held }
        ensures lends { result ≡ Ok true → R.lends self.new.reader }
    {
        assert!(rt; self.meter.held() < 1 << 32);
        assert!(rt; self.meter.refused() < 1 << 32);
        self.reader.next(&mut self.meter)
    }

    /// The words of all items, and of the ending, which is answered again and again.
    fn read(&mut self, rt: &impl Abort, alloc: Global) -> Result<String, Fail>
        requires sound { R.sound self.old.reader }
        requires held { R.own self.old.reader ≤ self.old.meter.held }
        ensures sound { R.sound self.new.reader }
        ensures held { R.own self.new.reader ≤ self.new.meter.held }
    {
        let mut words = String::new(alloc);
        'items: for _ in 0..MANY {
            match self.next(rt) {
                Ok(true) => tell_item(&mut words, &self.reader.item())?,
                ending => {
                    tell_ending(&mut words, ending)?;
                    assert!(rt; self.next(rt) == ending);
                    return Ok(words);
                }
            }
        }
        panic!(rt; "the text has no end")
    }
}

/// A reader over pieces.
type PieceReader<'a, A> = TextReader<FromRead<Pieces<'a>>, A>;

/// A reader over these pieces, with a meter of its own.
fn start<'a, A: Allocator + Copy>(
    rt: &impl Abort,
    alloc: A,
    limits: Limits,
    profile: Profile,
    input: Pieces<'a>,
) -> Running<PieceReader<'a, A>, A>
    ensures sound { ⟦<PieceReader<'a, A> as RawReader<A>>⟧.sound result.reader }
    ensures held { ⟦<PieceReader<'a, A> as RawReader<A>>⟧.own result.reader
        ≤ result.meter.held }
{
    assert!(rt; limits.check());
    let mut meter = Meter::new(alloc);
    let Ok(source) = Source::new(&mut meter, limits, FromRead::new(input)) else {
        panic!(rt; "no memory for the window")
    };
    let reader = TextReader::with_profile(&meter, limits, profile, source);
    Running { reader, meter }
}

/// What was read of a text: the words of its items and of how it ends, how much was held then beside
/// the window, and how often memory was refused.
#[derive(Drop)]
struct Told {
    words: String,
    held: u64,
    refused: u64,
}

/// Reads these pieces to the end: at no moment is more held than a reader may hold, and at the end
/// all is given back.
fn read_by<A: Allocator + Copy>(
    rt: &impl Abort,
    alloc: A,
    limits: Limits,
    profile: Profile,
    input: Pieces<'_>,
    words_in: Global,
) -> Result<Told, Fail> {
    let mut running = start(rt, alloc, limits, profile, input);
    let words = running.read(rt, words_in);
    let Running { reader, mut meter } = running;
    let most = 16u64.saturating_mul(u64::from(limits.depth));
    let most = limits.scalar.saturating_mul(3).saturating_add(most);
    assert!(rt; meter.peak() <= most.saturating_add(4096));
    let held = meter.held().saturating_sub(4096);
    let _device = reader.release(&mut meter);
    assert!(rt; meter.held() == 0);
    Ok(Told {
        words: words?,
        held,
        refused: meter.refused(),
    })
}

/// Reads these pieces, and compares what is told of them.
fn expect_pieces(
    rt: &impl Abort,
    alloc: Global,
    limits: Limits,
    profile: Profile,
    input: Pieces<'_>,
    words: &str,
) -> Result<u64, Fail> {
    let told = read_by(rt, alloc, limits, profile, input, alloc)?;
    assert_eq!(rt; told.words.as_str(), words);
    assert!(rt; told.refused == 0);
    Ok(told.held)
}

/// Reads each text whole, a byte at a time, and cut at each place.
fn expect_rows(rt: &impl Abort, alloc: Global, profile: Profile, rows: &[Row]) -> Result<(), Fail> {
    for (scalar, text, words) in rows {
        let limits = Limits {
            scalar: *scalar,
            ..LIMITS
        };
        expect_pieces(rt, alloc, limits, profile, Pieces::new(text, 1, 1), words)?;
        expect_pieces(
            rt,
            alloc,
            limits,
            profile,
            Pieces::new(text, WHOLE, WHOLE),
            words,
        )?;
        for place in 1..text.len() {
            expect_pieces(
                rt,
                alloc,
                limits,
                profile,
                Pieces::new(text, place, WHOLE),
                words,
            )?;
        }
    }
    Ok(())
}

#[test]
fn reads_rows(rt: HostRuntime) -> Result<(), Fail> {
    for rows in [
        tokens::NUMBERS,
        tokens::WORDS,
        tokens::MARKS,
        texts::SHORT,
        texts::LONG,
        texts::REFUSED,
        texts::CUT,
        lobs::BLOBS,
        lobs::CLOBS,
        lobs::REFUSED,
        lobs::WHITE,
        blanks::BLANKS,
        drawn::TEXTS,
        drawn::AFTER,
        items::ITEMS,
        items::FAULTS,
    ] {
        expect_rows(&rt, rt.alloc(), Profile::strict(), rows)?;
    }
    Ok(())
}

#[test]
fn reads_floats(rt: HostRuntime) -> Result<(), Fail> {
    expect_rows(&rt, rt.alloc(), Profile::floats(), floats::FLOATS)
}
