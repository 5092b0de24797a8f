//! The texts of an output.
ghost use Rattle.std.specs.Prelude.{◌≤◌};
ghost use Rattle.ion_symbols.specs.Output.{texts_cost};

use super::growths::give;
use crate::meter::counts_of;
use crate::same::{holds, same};
use ion_meter::buf::{Added, Buf};
use ion_meter::limits::Limits;
use ion_meter::meter::Meter;
use ion_symbols::output::OutSymbols;
use ion_symbols::search::place_of;
use std::alloc::{Allocator, Global};
use std::process::Abort;
use std::test::Fail;

/// Asserts which texts there are from an id on.
pub fn expect_since<A: Allocator + Copy>(
    rt: &impl Abort,
    texts: &OutSymbols<A>,
    id: u32,
    wanted: &[&str],
) {
    let since = texts.new_since(id);
    let found = (since.len(), since.is_empty());
    same(rt, found, (wanted.len(), wanted.is_empty()));
    let mut place = 0;
    for text in wanted {
        same(rt, (id, since.get(place)), (id, Some(text.as_bytes())));
        holds(rt, place < 1_000);
        place += 1;
    }
    same(rt, since.get(place), None);
}

/// Texts, and the meter of what they hold.
#[derive(Drop)]
struct Texting {
    texts: OutSymbols<Global>,
    meter: Meter<Global>,
}

// Texts of which the cost may be so much.
fn start(rt: &impl Abort, alloc: Global, symbols: u64) -> Texting
    ensures { texts_cost result.texts.texts ≤ result.meter.held }
{
    let limits = Limits {
        depth: 4,
        scalar: 64,
        symbols,
        value: 64,
        input: 64,
    };
    holds(rt, limits.check());
    let meter = Meter::new(alloc);
    let texts = OutSymbols::new(&meter, limits);
    Texting { texts, meter }
}

/// A call on texts, and what it answers.
#[derive(Clone, Copy)]
enum Step<'a> {
    /// The id of a text.
    Id(&'a str, Option<u32>),
    /// The id of a text, found without a search where it has one.
    Give(&'a str, Option<u32>),
    /// Whether a text without an id is given the next one at once, with three octets, where there is room
    /// for so many.
    Next(&'a str, usize, bool),
    /// The id that a text has.
    Known(&'a str, Option<u32>),
    /// The texts from an id on.
    Since(u32, &'a [&'a str]),
    /// Where a text stands in order of bytes, or where it belongs.
    Place(&'a [u8], Result<u32, u32>),
    /// What the texts cost, which is all that is held.
    Cost(u64),
    /// The most that was held.
    Peak(u64),
    /// The least and the most that the last search may have probed.
    Probes(u32, u32),
    /// Forgets the texts.
    Clear,
}

// Makes room for so many octets, of which none stands there then.
fn make_room(rt: &impl Abort, meter: &mut Meter<Global>, octets: &mut Buf<Global>, room: usize) {
    counts_of(rt, meter);
    holds(rt, room < 1_000);
    same(rt, octets.extend_zeros(meter, room), Ok(()));
    holds(rt, octets.as_slice().len() as u64 <= meter.held());
    octets.clear(meter);
}

// Asserts whether a text without an id is given the next one, and three octets are put with it.
fn expect_both(
    rt: &impl Abort,
    texting: &mut Texting,
    octets: &mut Buf<Global>,
    text: &str,
    is_given: bool,
) {
    holds(rt, texting.meter.held() < 1 << 33);
    let bytes = text.as_bytes();
    let id = texting.texts.next_id();
    same(rt, (text, texting.texts.known(bytes)), (text, None));
    let added = Added {
        bytes,
        front: b"ab",
        rest: b"c",
    };
    let given = texting.texts.give_next(octets, &mut texting.meter, added);
    same(rt, (text, given), (text, is_given));
    let put = if given {
        (Some(id), b"abc".as_slice())
    } else {
        (None, b"".as_slice())
    };
    same(rt, (texting.texts.known(bytes), octets.as_slice()), put);
}

impl Texting {
    // Asserts the id of a text, which is found by halving where texts are put in order.
    fn expect_id(&mut self, rt: &impl Abort, text: &str, id: Option<u32>, in_order: bool)
        requires held { texts_cost self.old.texts.texts ≤ self.old.meter.held }
        ensures held { texts_cost self.new.texts.texts ≤ self.new.meter.held }
    {
        let given = give(rt, &mut self.meter, &mut self.texts, text, in_order);
        same(rt, (text, given), (text, Ok(id)));
    }

    // Asserts whether a text without an id is given the next one at once, and octets are put with it, where
    // there is room for so many octets. Neither is done without the other.
    fn expect_next(&mut self, rt: &impl Abort, text: &str, room: usize, is_given: bool)
        requires held { texts_cost self.old.texts.texts ≤ self.old.meter.held }
        ensures held { texts_cost self.new.texts.texts ≤ self.new.meter.held }
    {
        let mut octets = Buf::new(&self.meter);
        make_room(rt, &mut self.meter, &mut octets, room);
        expect_both(rt, self, &mut octets, text, is_given);
        holds(rt, octets.as_slice().len() as u64 <= self.meter.held());
        octets.release(&mut self.meter);
        holds(rt, self.texts.cost() <= self.meter.held());
    }

    // Asserts where a text stands in order of bytes, or where it belongs.
    fn expect_place(&mut self, rt: &impl Abort, text: &[u8], place: Result<u32, u32>)
        requires held { texts_cost self.old.texts.texts ≤ self.old.meter.held }
        ensures held { texts_cost self.new.texts.texts ≤ self.new.meter.held }
    {
        self.texts.put_in_order();
        let mut search = self.texts.search().expect(rt, "an order");
        same(rt, search.probes(), 0);
        same(rt, (text, place_of(&mut search, text)), (text, place));
    }

    // Asserts what a call answers.
    fn expect(&mut self, rt: &impl Abort, step: Step)
        requires held { texts_cost self.old.texts.texts ≤ self.old.meter.held }
        ensures held { texts_cost self.new.texts.texts ≤ self.new.meter.held }
    {
        match step {
            Step::Id(text, id) => self.expect_id(rt, text, id, true),
            Step::Give(text, id) => self.expect_id(rt, text, id, false),
            Step::Next(text, room, is_given) => self.expect_next(rt, text, room, is_given),
            Step::Place(text, place) => self.expect_place(rt, text, place),
            Step::Clear => self.texts.clear(&mut self.meter),
            _ => self.expect_seen(rt, step),
        }
    }

    // Asserts what is answered where nothing is changed.
    fn expect_seen(&self, rt: &impl Abort, step: Step) {
        match step {
            Step::Known(text, id) => {
                same(rt, (text, self.texts.known(text.as_bytes())), (text, id));
            }
            Step::Since(id, texts) => expect_since(rt, &self.texts, id, texts),
            Step::Cost(cost) => {
                same(rt, (self.texts.cost(), self.meter.held()), (cost, cost));
            }
            Step::Peak(peak) => same(rt, self.meter.peak(), peak),
            Step::Probes(least, most) => {
                let probes = self.texts.last_probes();
                holds(rt, least <= probes && probes <= most);
            }
            _ => panic!(rt; "a call that changes the texts"),
        }
    }

    // Asserts what each call answers.
    fn expect_each(&mut self, rt: &impl Abort, steps: &[Step])
        requires held { texts_cost self.old.texts.texts ≤ self.old.meter.held }
        ensures held { texts_cost self.new.texts.texts ≤ self.new.meter.held }
    {
        for step in steps {
            self.expect(rt, *step);
        }
    }

    // Asserts which id the text of a number has, and which one it is given. No byte in which these texts
    // differ is read for their hash, so all of them have the same.
    fn expect_of_one_hash(
        &mut self,
        rt: &impl Abort,
        alloc: Global,
        number: u32,
        known: Option<u32>,
        given: u32,
    )
        requires held { texts_cost self.old.texts.texts ≤ self.old.meter.held }
        ensures held { texts_cost self.new.texts.texts ≤ self.new.meter.held }
    {
        let text = format!(in alloc; "aaaaaaaaaaaaaaaa{number}bbbbbbbbbbbbbbbb");
        let text = text.expect(rt, "memory");
        same(
            rt,
            (number, self.texts.known(text.as_bytes())),
            (number, known),
        );
        self.expect_id(rt, text.as_str(), Some(given), false);
    }

    // Asserts the ids of many texts of one hash, which they have, or are given now.
    fn expect_alike(&mut self, rt: &impl Abort, alloc: Global, are_known: bool)
        requires held { texts_cost self.old.texts.texts ≤ self.old.meter.held }
        ensures held { texts_cost self.new.texts.texts ≤ self.new.meter.held }
    {
        for number in 0..ALIKE {
            // A factor that has no divisor with 3,000, so that each text comes once, in no order.
            let name = number * 1_103 % ALIKE + 1_000;
            let id = number + 10;
            let known = if are_known { Some(id) } else { None };
            self.expect_of_one_hash(rt, alloc, name, known, id);
        }
    }

    // Asserts the id that a text has, and that it is found in at most so many comparisons.
    fn expect_soon(&self, rt: &impl Abort, text: &str, id: Option<u32>, most: u32) {
        let (known, probes) = self.texts.known_probes(text.as_bytes());
        same(rt, (text, known), (text, id));
        same(rt, (text, probes.max(most)), (text, most));
    }

    // Gives all back, after which nothing is held.
    fn finish(self, rt: &impl Abort)
        requires { texts_cost self.texts.texts ≤ self.meter.held }
    {
        let Texting { texts, mut meter } = self;
        same(rt, meter.held(), texts.cost());
        texts.release(&mut meter);
        same(rt, meter.held(), 0);
    }
}

/// How many texts have the same hash where many do, numbered with four digits.
const ALIKE: u32 = 3_000;

/// Asserts what each call answers, on new texts of which the cost may be so much, and gives all back.
fn follow(rt: &impl Abort, alloc: Global, symbols: u64, steps: &[Step]) {
    let mut texting = start(rt, alloc, symbols);
    texting.expect_each(rt, steps);
    texting.finish(rt);
}

const FROM_10_ON: &[Step] = &[
    Step::Probes(0, 0),
    Step::Id("b", Some(10)),
    Step::Id("a", Some(11)),
    Step::Id("c", Some(12)),
    Step::Id("a", Some(11)),
    Step::Probes(0, 2),
    Step::Cost(51),
    Step::Since(10, &["b", "a", "c"]),
    Step::Since(11, &["a", "c"]),
    Step::Since(12, &["c"]),
    Step::Since(13, &[]),
    Step::Since(u32::MAX, &[]),
    Step::Since(0, &["b", "a", "c"]),
];

const CLEARED: &[Step] = &[
    Step::Id("b", Some(10)),
    Step::Id("a", Some(11)),
    Step::Clear,
    Step::Cost(0),
    Step::Probes(0, 0),
    Step::Id("a", Some(10)),
    Step::Id("b", Some(11)),
    Step::Since(10, &["a", "b"]),
];

const CLEARED_AT_THE_LIMIT: &[Step] = &[
    Step::Clear,
    Step::Id("a", Some(10)),
    Step::Id("b", None),
    Step::Clear,
    Step::Cost(0),
    Step::Since(10, &[]),
    Step::Id("b", Some(10)),
];

const SYSTEM: &[Step] = &[
    Step::Id("b", Some(10)),
    Step::Id("a", Some(11)),
    Step::Id("b", Some(10)),
    Step::Probes(1, u32::MAX),
    Step::Id("$ion", Some(1)),
    Step::Id("$ion_1_0", Some(2)),
    Step::Id("$ion_symbol_table", Some(3)),
    Step::Id("name", Some(4)),
    Step::Id("version", Some(5)),
    Step::Id("imports", Some(6)),
    Step::Id("symbols", Some(7)),
    Step::Id("max_id", Some(8)),
    Step::Id("$ion_shared_symbol_table", Some(9)),
    Step::Probes(0, 0),
    Step::Id("$ion_1", Some(12)),
    Step::Id("", Some(13)),
    Step::Id("$ion_", Some(14)),
    Step::Since(10, &["b", "a", "$ion_1", "", "$ion_"]),
    Step::Cost(5 * 16 + 1 + 1 + 6 + 5),
];

const KNOWN: &[Step] = &[
    Step::Known("b", None),
    Step::Known("name", Some(4)),
    Step::Give("b", Some(10)),
    Step::Give("name", Some(4)),
    Step::Give("", Some(11)),
    Step::Id("abc", Some(12)),
    Step::Give("b", Some(10)),
    Step::Known("b", Some(10)),
    Step::Known("", Some(11)),
    Step::Known("abc", Some(12)),
    Step::Known("abd", None),
    Step::Known("$ion_shared_symbol_table", Some(9)),
    Step::Probes(2, 2),
    Step::Cost(3 * 16 + 1 + 3),
    Step::Since(10, &["b", "", "abc"]),
    Step::Clear,
    Step::Known("b", None),
    Step::Give("abc", Some(10)),
    Step::Known("abc", Some(10)),
];

// Texts that differ in no byte that is read for their hash.
const OF_ONE_HASH: &[Step] = &[
    Step::Give("aaaaaaaaaaaaaaaa00bbbbbbbbbbbbbbbb", Some(10)),
    Step::Give("aaaaaaaaaaaaaaaa07bbbbbbbbbbbbbbbb", Some(11)),
    Step::Give("aaaaaaaaaaaaaaaa04bbbbbbbbbbbbbbbb", Some(12)),
    Step::Give("aaaaaaaaaaaaaaaa09bbbbbbbbbbbbbbbb", Some(13)),
    Step::Give("aaaaaaaaaaaaaaaa02bbbbbbbbbbbbbbbb", Some(14)),
    Step::Give("aaaaaaaaaaaaaaaa06bbbbbbbbbbbbbbbb", Some(15)),
    Step::Give("aaaaaaaaaaaaaaaa01bbbbbbbbbbbbbbbb", Some(16)),
    Step::Give("aaaaaaaaaaaaaaaa08bbbbbbbbbbbbbbbb", Some(17)),
    Step::Give("aaaaaaaaaaaaaaaa03bbbbbbbbbbbbbbbb", Some(18)),
    Step::Give("aaaaaaaaaaaaaaaa05bbbbbbbbbbbbbbbb", Some(19)),
    Step::Known("aaaaaaaaaaaaaaaa00bbbbbbbbbbbbbbbb", Some(10)),
    Step::Known("aaaaaaaaaaaaaaaa07bbbbbbbbbbbbbbbb", Some(11)),
    Step::Known("aaaaaaaaaaaaaaaa04bbbbbbbbbbbbbbbb", Some(12)),
    Step::Known("aaaaaaaaaaaaaaaa05bbbbbbbbbbbbbbbb", Some(19)),
    Step::Known("aaaaaaaaaaaaaaaa10bbbbbbbbbbbbbbbb", None),
];

const AFTER_THEM: &[Step] = &[
    Step::Known("aaaaaaaaaaaaaaaa4000bbbbbbbbbbbbbbbb", None),
    Step::Known("aaaaaaaaaaaaaaaa0999bbbbbbbbbbbbbbbb", None),
    Step::Id("aaaaaaaaaaaaaaaa1000bbbbbbbbbbbbbbbb", Some(10)),
    Step::Since(3_009, &["aaaaaaaaaaaaaaaa2897bbbbbbbbbbbbbbbb"]),
    Step::Cost(3_000 * (16 + 36)),
    Step::Id("one more", Some(3_010)),
];

#[test]
fn texts_of_one_hash_have_their_ids(rt: HostRuntime) {
    let mut texting = start(&rt, rt.alloc(), 1_048_576);
    for known in [false, true] {
        texting.expect_alike(&rt, rt.alloc(), known);
    }
    texting.expect_each(&rt, AFTER_THEM);
    texting.finish(&rt);
}

// As many texts of one hash as are linked stand before: one more puts all in order.
const AFTER_THE_LAST_LINK: &[Step] = &[
    Step::Known("aaaaaaaaaaaaaaaa2000bbbbbbbbbbbbbbbb", None),
    Step::Give("another", Some(42)),
    Step::Next("aaaaaaaaaaaaaaaa2000bbbbbbbbbbbbbbbb", 8, false),
    Step::Next("one more", 8, true),
    Step::Give("aaaaaaaaaaaaaaaa2000bbbbbbbbbbbbbbbb", Some(44)),
    Step::Next("no more", 8, false),
    Step::Known("another", Some(42)),
    Step::Known("one more", Some(43)),
    Step::Known("aaaaaaaaaaaaaaaa2000bbbbbbbbbbbbbbbb", Some(44)),
    Step::Known("aaaaaaaaaaaaaaaa2001bbbbbbbbbbbbbbbb", None),
    Step::Give("no more", Some(45)),
    Step::Give("aaaaaaaaaaaaaaaa1000bbbbbbbbbbbbbbbb", Some(10)),
    Step::Known("aaaaaaaaaaaaaaaa1031bbbbbbbbbbbbbbbb", Some(41)),
    Step::Cost(33 * (16 + 36) + 3 * 16 + 7 + 8 + 7),
    // Once all are taken away they are linked again.
    Step::Clear,
    Step::Known("another", None),
    Step::Next("another", 8, true),
    Step::Known("another", Some(10)),
    Step::Give("aaaaaaaaaaaaaaaa1031bbbbbbbbbbbbbbbb", Some(11)),
    Step::Known("aaaaaaaaaaaaaaaa1000bbbbbbbbbbbbbbbb", None),
];

#[test]
fn too_many_texts_of_one_hash_are_put_in_order(rt: HostRuntime) {
    let mut texting = start(&rt, rt.alloc(), 4_096);
    for number in 0..32_u32 {
        texting.expect_of_one_hash(&rt, rt.alloc(), number + 1_000, None, number + 10);
    }
    texting.expect_each(&rt, AFTER_THE_LAST_LINK);
    texting.finish(&rt);
}

const NEXT: &[Step] = &[
    // There is no room for a text.
    Step::Next("b", 8, false),
    Step::Give("b", Some(10)),
    Step::Next("a", 8, true),
    // There is none for the octets.
    Step::Next("c", 0, false),
    Step::Next("c", 3, true),
    Step::Give("a", Some(11)),
    Step::Known("c", Some(12)),
    Step::Cost(51),
    Step::Peak(54),
    Step::Since(10, &["b", "a", "c"]),
    Step::Probes(0, 0),
    // In order of bytes none is given at once, until all are taken away.
    Step::Place(b"b", Ok(1)),
    Step::Next("d", 8, false),
    Step::Give("d", Some(13)),
    Step::Since(10, &["b", "a", "c", "d"]),
    Step::Clear,
    Step::Next("d", 8, true),
    Step::Next("a", 8, true),
    Step::Since(10, &["d", "a"]),
];

const NEXT_PAST_THE_LIMIT: &[Step] = &[
    Step::Give("a", Some(10)),
    Step::Next("bcd", 8, false),
    Step::Next("bc", 8, true),
    Step::Next("", 8, false),
    Step::Since(10, &["a", "bc"]),
    Step::Cost(35),
];

const PAST_THE_LIMIT: &[Step] = &[
    Step::Id("ab", None),
    Step::Id("a", Some(10)),
    Step::Id("b", None),
    Step::Id("", None),
    Step::Id("a", Some(10)),
    Step::Id("name", Some(4)),
    Step::Since(10, &["a"]),
    Step::Cost(17),
    Step::Peak(17),
];

const IN_ORDER: &[Step] = &[
    Step::Place(b"a", Err(0)),
    Step::Id("b", Some(10)),
    Step::Id("\u{e9}", Some(11)),
    Step::Id("Z", Some(12)),
    Step::Id("ba", Some(13)),
    Step::Id("\u{10000}", Some(14)),
    Step::Id("\u{ffff}", Some(15)),
    // Those that are there.
    Step::Place(b"Z", Ok(0)),
    Step::Place(b"b", Ok(1)),
    Step::Place(b"ba", Ok(2)),
    Step::Place(b"\xC3\xA9", Ok(3)),
    Step::Place(b"\xEF\xBF\xBF", Ok(4)),
    Step::Place(b"\xF0\x90\x80\x80", Ok(5)),
    // Those that are not, and where they belong.
    Step::Place(b"", Err(0)),
    Step::Place(b"Za", Err(1)),
    Step::Place(b"a", Err(1)),
    Step::Place(b"b\x00", Err(2)),
    Step::Place(b"bb", Err(3)),
    Step::Place(b"\xF0\x90\x80\x81", Err(6)),
    Step::Place(b"\xFF", Err(6)),
];

const FEW_PROBES: &[Step] = &[
    Step::Probes(0, 12),
    Step::Id("text 0", Some(10)),
    Step::Id("text 1103", Some(11)),
    Step::Probes(1, 13),
    // They are in order of bytes, and stay so.
    Step::Give("one more", Some(4_106)),
    Step::Known("one more", Some(4_106)),
    Step::Known("text 0", Some(10)),
    Step::Known("text", None),
    Step::Known("name", Some(4)),
    Step::Give("text 1103", Some(11)),
    Step::Give("another", Some(4_107)),
];

#[test]
fn a_place_is_found_with_few_probes(rt: HostRuntime) -> Result<(), Fail> {
    let mut texting = start(&rt, rt.alloc(), 1_048_576);
    for number in 0..4_096_u32 {
        // An odd factor, so that each text comes once, in no order.
        let name = number * 1_103 % 4_096;
        let text = format!(in rt.alloc(); "text {name}")?;
        texting.expect_id(&rt, text.as_str(), Some(number + 10), true);
    }
    same(&rt, texting.texts.new_since(10).len(), 4_096);
    texting.expect_each(&rt, FEW_PROBES);
    // The first of its bucket may be another.
    texting.expect_soon(&rt, "text 0", Some(10), 14);
    texting.finish(&rt);
    Ok(())
}

#[test]
fn a_text_of_many_is_known_in_few_probes(rt: HostRuntime) -> Result<(), Fail> {
    let mut texting = start(&rt, rt.alloc(), 1_048_576);
    for number in 0..4_096_u32 {
        let text = format!(in rt.alloc(); "text {number}")?;
        let id = Some(number + 10);
        texting.expect_soon(&rt, text.as_str(), None, 12);
        texting.expect_id(&rt, text.as_str(), id, false);
        texting.expect_soon(&rt, text.as_str(), id, 12);
    }
    texting.finish(&rt);
    Ok(())
}

/// What the texts may cost, and calls.
const RUNS: &[(u64, &[Step])] = &[
    // Texts get ids from 10 on.
    (1_024, FROM_10_ON),
    // System texts have ids without probes.
    (1_024, SYSTEM),
    // Cleared texts begin at 10 again, and cost nothing.
    (1_024, CLEARED),
    (17, CLEARED_AT_THE_LIMIT),
    // A text past the limit gets no id.
    (17, PAST_THE_LIMIT),
    // Texts stand in order of bytes.
    (1_024, IN_ORDER),
    // A text that has an id is known.
    (1_024, KNOWN),
    (1_024, OF_ONE_HASH),
    // A new text gets the next id at once.
    (1_024, NEXT),
    (35, NEXT_PAST_THE_LIMIT),
];

#[test]
fn texts_have_ids(rt: HostRuntime) {
    for (symbols, steps) in RUNS {
        follow(&rt, rt.alloc(), *symbols, steps);
    }
}
