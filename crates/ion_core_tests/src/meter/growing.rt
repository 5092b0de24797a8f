// Calls that grow, each over an allocator that refuses it.
ghost use Rattle.std.specs.Prelude.{◌≡◌, ◌<◌};

use super::{Script, counts_of, is_refused, refuse_each};
use crate::same::{holds, same};
use ion_meter::buf::Buf;
use ion_meter::fault::Fault;
use ion_meter::meter::Meter;
use ion_meter::stack::Stack;
use ion_meter::table::Table;
use std::alloc::{Allocator, Global};
use std::process::Abort;

/// A call that grows.
#[derive(Clone, Copy)]
enum Call<'a> {
    Push(u8),
    Extend(&'a [u8]),
    Insert(usize, u8),
}

/// What grows.
trait Growing<A: Allocator + Copy> {
    fn contents(&self) -> &[u8];

    /// Makes the call. An entry that is handed back has to be the one that was given.
    fn make(&mut self, rt: &impl Abort, meter: &mut Meter<A>, call: Call) -> Result<(), Fault>;
}

impl<A: Allocator + Copy> Growing<A> for Buf<A> {
    fn contents(&self) -> &[u8] {
        self.as_slice()
    }

    fn make(&mut self, rt: &impl Abort, meter: &mut Meter<A>, call: Call) -> Result<(), Fault> {
        counts_of(rt, meter);
        match call {
            Call::Push(byte) => self.push(meter, byte),
            Call::Extend(bytes) => {
                holds(rt, bytes.len() < 1_000);
                self.extend(meter, bytes)
            }
            Call::Insert(place, byte) => {
                holds(rt, place <= self.as_slice().len());
                self.insert(meter, place, byte)
            }
        }
    }
}

impl<A: Allocator + Copy> Growing<A> for Stack<u8, A> {
    fn contents(&self) -> &[u8] {
        self.as_slice()
    }

    fn make(&mut self, rt: &impl Abort, meter: &mut Meter<A>, call: Call) -> Result<(), Fault> {
        counts_of(rt, meter);
        match call {
            Call::Push(entry) => handed_back(rt, self.push(meter, entry), entry),
            Call::Extend(entries) => {
                holds(rt, entries.len() < 1_000);
                self.extend(meter, entries)
            }
            Call::Insert(place, entry) => {
                holds(rt, place <= self.as_slice().len());
                handed_back(rt, self.insert(meter, place, entry), entry)
            }
        }
    }
}

/// A table with a known cost.
#[derive(Drop)]
struct Priced<A: Allocator + Copy> {
    table: Table<u8, A>,
    ghost cost: { table.cost ≡ 24 },
}

impl<A: Allocator + Copy> Growing<A> for Priced<A> {
    fn contents(&self) -> &[u8] {
        self.table.as_slice()
    }

    fn make(&mut self, rt: &impl Abort, meter: &mut Meter<A>, call: Call) -> Result<(), Fault> {
        counts_of(rt, meter);
        match call {
            Call::Push(entry) => handed_back(rt, self.table.push(meter, entry), entry),
            Call::Extend(entries) => {
                holds(rt, entries.len() < 1_000);
                self.table.extend(meter, entries)
            }
            Call::Insert(place, entry) => {
                holds(rt, place <= self.table.as_slice().len());
                handed_back(rt, self.table.insert(meter, place, entry), entry)
            }
        }
    }
}

/// Two tables with known costs. The second has the entries of the first, the last one first.
#[derive(Drop)]
struct Paired<A: Allocator + Copy> {
    table: Table<u8, A>,
    others: Table<u8, A>,
    ghost cost: { table.cost ≡ 24 },
    ghost other_cost: { others.cost ≡ 8 },
}

impl<A: Allocator + Copy> Growing<A> for Paired<A> {
    fn contents(&self) -> &[u8] {
        self.table.as_slice()
    }

    fn make(&mut self, rt: &impl Abort, meter: &mut Meter<A>, call: Call) -> Result<(), Fault> {
        counts_of(rt, meter);
        let Call::Push(entry) = call else {
            panic!(rt; "no call of two tables")
        };
        let others = &mut self.others;
        let pushed = self.table.push_and_insert(others, meter, entry, 0, entry);
        let answer = handed_back(rt, pushed, entry);
        let length = self.table.as_slice().len();
        same(rt, self.others.as_slice().len(), length);
        answer
    }
}

/// Bytes whose every growth is a slice that is put in, or a gap that is filled.
#[derive(Drop)]
struct Spliced<A: Allocator + Copy> {
    buf: Buf<A>,
}

impl<A: Allocator + Copy> Growing<A> for Spliced<A> {
    fn contents(&self) -> &[u8] {
        self.buf.as_slice()
    }

    fn make(&mut self, rt: &impl Abort, meter: &mut Meter<A>, call: Call) -> Result<(), Fault> {
        counts_of(rt, meter);
        let end = self.buf.as_slice().len();
        match call {
            Call::Push(byte) => self.buf.insert_slice(meter, end, &[byte]),
            Call::Extend(bytes) => {
                holds(rt, bytes.len() < 1_000);
                self.buf.insert_slice(meter, end, bytes)
            }
            Call::Insert(place, byte) => {
                holds(rt, place <= end);
                if let Err(fault) = self.buf.extend_zeros(meter, 1) {
                    return Err(fault);
                }
                self.buf.move_after(place, end, 1, &[byte]);
                Ok(())
            }
        }
    }
}

/// The answer without the entry, which has to be this one.
fn handed_back(rt: &impl Abort, answer: Result<(), (u8, Fault)>, entry: u8) -> Result<(), Fault> {
    if let Err((back, fault)) = answer {
        same(rt, back, entry);
        return Err(fault);
    }
    Ok(())
}

/// Makes the call, and once more where it is refused. A refused call changes nothing but the count of refusals.
fn grow<A: Allocator + Copy>(
    rt: &impl Abort,
    alloc: Global,
    meter: &mut Meter<A>,
    grown: &mut impl Growing<A>,
    call: Call,
) {
    let contents = grown.contents().to_vec(alloc).expect(rt, "memory");
    grow_from(rt, meter, grown, call, contents.as_slice());
}

/// Makes the call on a value that has these contents, and once more where it is refused.
fn grow_from<A: Allocator + Copy>(
    rt: &impl Abort,
    meter: &mut Meter<A>,
    grown: &mut impl Growing<A>,
    call: Call,
    contents: &[u8],
) {
    let before = counts_of(rt, meter);
    if let Err(fault) = grown.make(rt, meter, call) {
        same(rt, fault, Fault::Memory);
        same(rt, grown.contents(), contents);
        is_refused(rt, meter, before);
        same(rt, grown.make(rt, meter, call), Ok(()));
    }
}

/// Pushes, extends and inserts, so that each is refused in some run. At the end this much is held.
fn grow_often<A: Allocator + Copy>(
    rt: &impl Abort,
    alloc: Global,
    meter: &mut Meter<A>,
    grown: &mut impl Growing<A>,
    held: u64,
) -> u64 {
    for entry in 0..40 {
        grow(rt, alloc, meter, grown, Call::Push(entry));
    }
    grow(rt, alloc, meter, grown, Call::Extend(&[7; 100]));
    for place in 0..60 {
        grow(rt, alloc, meter, grown, Call::Insert(place, 9));
    }
    same(rt, grown.contents().len(), 200);
    same(rt, (meter.held(), meter.peak()), (held, held));
    meter.refused()
}

pub fn grow_bytes<A: Allocator + Copy>(rt: &impl Abort, alloc: Global, inner: A) -> u64 {
    let mut meter = Meter::new(inner);
    let mut buf = Buf::new(&meter);
    grow_often(rt, alloc, &mut meter, &mut buf, 200)
}

pub fn grow_spliced_bytes<A: Allocator + Copy>(rt: &impl Abort, alloc: Global, inner: A) -> u64 {
    let mut meter = Meter::new(inner);
    let buf = Buf::new(&meter);
    grow_often(rt, alloc, &mut meter, &mut Spliced { buf }, 200)
}

pub fn grow_stack<A: Allocator + Copy>(rt: &impl Abort, alloc: Global, inner: A) -> u64 {
    let mut meter = Meter::new(inner);
    let mut stack = Stack::new(&meter);
    grow_often(rt, alloc, &mut meter, &mut stack, 3_200)
}

pub fn grow_table<A: Allocator + Copy>(rt: &impl Abort, alloc: Global, inner: A) -> u64 {
    let mut meter = Meter::new(inner);
    let table = Table::new(&meter, 24);
    grow_often(rt, alloc, &mut meter, &mut Priced { table }, 4_800)
}

pub fn grow_two_tables<A: Allocator + Copy>(rt: &impl Abort, alloc: Global, inner: A) -> u64 {
    let mut meter = Meter::new(inner);
    let table = Table::new(&meter, 24);
    let others = Table::new(&meter, 8);
    let mut paired = Paired { table, others };
    for entry in 0..40 {
        grow(rt, alloc, &mut meter, &mut paired, Call::Push(entry));
    }
    same(rt, (meter.held(), meter.peak()), (1_280, 1_280));
    same(rt, paired.others.as_slice().first(), Some(&39));
    meter.refused()
}

/// What grows, and how often: four of the pushes are refused, then the extension, then an insertion. Of
/// the pushes of bytes one is, since room is made for 64 at least.
const GROWING: &[(&str, Script, u64)] = &[
    ("bytes", Script::Bytes, 3),
    ("spliced bytes", Script::SplicedBytes, 3),
    ("stack", Script::Stack, 6),
    ("table", Script::Table, 6),
];

#[test]
fn each_grows_past_each_refusal(rt: HostRuntime) {
    for (name, script, refusals) in GROWING {
        let runs = refuse_each(&rt, rt.alloc(), *script);
        same(&rt, (*name, runs), (*name, *refusals));
    }
    // Of each of two tables four growths.
    same(&rt, refuse_each(&rt, rt.alloc(), Script::TwoTables), 8);
}
