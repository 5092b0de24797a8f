// What each call leaves, and what it costs.
ghost use Rattle.std.specs.Prelude.{◌≡◌};

use super::{LIMITS, counts_of};
use crate::same::{holds, same};
use ion_meter::buf::Buf;
use ion_meter::fault::{Fault, Reason};
use ion_meter::limits::Limits;
use ion_meter::meter::Meter;
use ion_meter::sink::Sink;
use ion_meter::source::Source;
use ion_meter::stack::Stack;
use ion_meter::stream::{FromRead, ToWrite};
use ion_meter::table::Table;
use std::alloc::Global;
use std::process::Abort;
use std::test::Fail;

/// A call on bytes.
#[derive(Clone, Copy)]
enum ByteCall<'a> {
    Push(u8),
    Extend(&'a [u8]),
    Insert(usize, u8),
    InsertSlice(usize, &'a [u8]),
    ExtendZeros(usize),
    /// Those from a place up to an end are moved by a gap, and these are put before them.
    MoveAfter(usize, usize, usize, &'a [u8]),
    /// Whether these and more after them are added, since there is room.
    ExtendIfRoom(&'a [u8], &'a [u8], bool),
    /// Whether these are put in, since there is room.
    InsertIfRoom(usize, &'a [u8], bool),
    Set(usize, u8),
    Pop(Option<u8>),
    Truncate(usize),
    Clear,
}

/// Makes the call, which is not refused. What follows from many arms is dear, so that others make the other calls.
fn call_buf(rt: &impl Abort, meter: &mut Meter<Global>, buf: &mut Buf<Global>, call: ByteCall) {
    counts_of(rt, meter);
    match call {
        ByteCall::Push(byte) => same(rt, buf.push(meter, byte), Ok(())),
        ByteCall::Extend(bytes) => {
            holds(rt, bytes.len() < 1_000);
            same(rt, buf.extend(meter, bytes), Ok(()));
        }
        ByteCall::ExtendZeros(count) => {
            holds(rt, count < 1_000);
            same(rt, buf.extend_zeros(meter, count), Ok(()));
        }
        ByteCall::ExtendIfRoom(bytes, more, added) => {
            holds(rt, bytes.len() < 1_000);
            holds(rt, more.len() < 1_000);
            same(rt, buf.extend_if_room(meter, bytes, more), added);
        }
        _ => put_in(rt, meter, buf, call),
    }
}

/// Makes a call that puts bytes between others, and is not refused.
fn put_in(rt: &impl Abort, meter: &mut Meter<Global>, buf: &mut Buf<Global>, call: ByteCall) {
    counts_of(rt, meter);
    let length = buf.as_slice().len();
    match call {
        ByteCall::Insert(place, byte) => {
            holds(rt, place <= length);
            same(rt, buf.insert(meter, place, byte), Ok(()));
        }
        ByteCall::InsertSlice(place, bytes) => {
            holds(rt, place <= length);
            holds(rt, bytes.len() < 1_000);
            same(rt, buf.insert_slice(meter, place, bytes), Ok(()));
        }
        ByteCall::InsertIfRoom(place, bytes, added) => {
            holds(rt, place <= length);
            holds(rt, bytes.len() < 1_000);
            same(rt, buf.insert_if_room(meter, place, bytes), added);
        }
        _ => change(rt, meter, buf, call),
    }
}

/// Makes a call that sets bytes or takes them off.
fn change(rt: &impl Abort, meter: &mut Meter<Global>, buf: &mut Buf<Global>, call: ByteCall) {
    let length = buf.as_slice().len();
    holds(rt, length as u64 <= meter.held());
    match call {
        ByteCall::MoveAfter(place, end, gap, bytes) => {
            holds(
                rt,
                place <= end && end <= length && gap <= length - end && bytes.len() <= gap,
            );
            buf.move_after(place, end, gap, bytes);
        }
        ByteCall::Set(place, byte) => {
            holds(rt, place < length);
            buf.set(place, byte);
        }
        ByteCall::Pop(byte) => same(rt, buf.pop(meter), byte),
        ByteCall::Truncate(to) => buf.truncate(meter, to),
        _ => buf.clear(meter),
    }
}

/// Makes the calls, and asserts the bytes after each, of which each costs 1.
fn make_all(
    rt: &impl Abort,
    meter: &mut Meter<Global>,
    buf: &mut Buf<Global>,
    calls: &[(ByteCall, &[u8])],
) {
    for (call, bytes) in calls {
        call_buf(rt, meter, buf, *call);
        same(
            rt,
            (buf.as_slice(), meter.held()),
            (*bytes, bytes.len() as u64),
        );
    }
}

/// Makes the calls. Then all is given back, and so much was held at most.
fn follow_buf(rt: &impl Abort, alloc: Global, calls: &[(ByteCall, &[u8])], peak: u64) {
    let mut meter = Meter::new(alloc);
    let mut buf = Buf::new(&meter);
    make_all(rt, &mut meter, &mut buf, calls);
    same(rt, meter.peak(), peak);
    holds(rt, buf.as_slice().len() as u64 <= meter.held());
    buf.release(&mut meter);
    let found = (meter.held(), meter.peak(), meter.refused());
    same(rt, found, (0, peak, 0));
}

const CUT: &[(ByteCall, &[u8])] = &[
    (ByteCall::Extend(b"abc"), b"abc"),
    (ByteCall::Insert(1, b'x'), b"axbc"),
    (ByteCall::Truncate(2), b"ax"),
];

const TAKEN_OFF: &[(ByteCall, &[u8])] = &[
    (ByteCall::Extend(b"ab"), b"ab"),
    (ByteCall::Set(0, b'y'), b"yb"),
    (ByteCall::Pop(Some(b'b')), b"y"),
    (ByteCall::Clear, b""),
    (ByteCall::Pop(None), b""),
];

const PUT_IN: &[(ByteCall, &[u8])] = &[
    (ByteCall::Push(b'a'), b"a"),
    (ByteCall::Push(b'b'), b"ab"),
    (ByteCall::InsertSlice(1, b"xy"), b"axyb"),
];

const MOVED: &[(ByteCall, &[u8])] = &[
    (ByteCall::Extend(b"abcd"), b"abcd"),
    (ByteCall::ExtendZeros(3), b"abcd\0\0\0"),
    (ByteCall::MoveAfter(3, 4, 3, b"x"), b"abcd\0xd"),
    (ByteCall::MoveAfter(1, 3, 2, b"yz"), b"ayzbcxd"),
];

const WHERE_ROOM_IS: &[(ByteCall, &[u8])] = &[
    (ByteCall::ExtendIfRoom(b"a", b"b", false), b""),
    (ByteCall::InsertIfRoom(0, b"a", false), b""),
    (ByteCall::Extend(b"abcdefgh"), b"abcdefgh"),
    // What is taken off leaves its room.
    (ByteCall::Truncate(1), b"a"),
    (ByteCall::ExtendIfRoom(b"xy", b"z", true), b"axyz"),
    (ByteCall::InsertIfRoom(1, b"bc", true), b"abcxyz"),
    (ByteCall::ExtendIfRoom(b"12", b"", true), b"abcxyz12"),
];

#[test]
fn bytes_are_put_in_and_taken_off(rt: HostRuntime) {
    follow_buf(&rt, rt.alloc(), CUT, 4);
    follow_buf(&rt, rt.alloc(), TAKEN_OFF, 2);
    follow_buf(&rt, rt.alloc(), PUT_IN, 4);
    follow_buf(&rt, rt.alloc(), MOVED, 7);
    follow_buf(&rt, rt.alloc(), WHERE_ROOM_IS, 8);
}

/// A call on entries.
#[derive(Clone, Copy)]
enum EntryCall<'a> {
    Push(u32),
    /// Whether this is added, since there is room.
    PushWithin(u32, bool),
    Extend(&'a [u32]),
    Insert(usize, u32),
    Set(usize, u32),
    Pop(Option<u32>),
    Truncate(usize),
    Clear,
}

/// Makes the call, which is not refused.
fn call_stack(
    rt: &impl Abort,
    meter: &mut Meter<Global>,
    stack: &mut Stack<u32, Global>,
    call: EntryCall,
) {
    counts_of(rt, meter);
    let length = stack.as_slice().len();
    holds(rt, length < 1_000);
    holds(rt, 16 * length as u64 <= meter.held());
    match call {
        EntryCall::Push(entry) => same(rt, stack.push(meter, entry), Ok(())),
        EntryCall::PushWithin(entry, added) => same(rt, stack.push_within(meter, entry), added),
        EntryCall::Extend(entries) => {
            holds(rt, entries.len() < 1_000);
            same(rt, stack.extend(meter, entries), Ok(()));
        }
        EntryCall::Insert(place, entry) => {
            holds(rt, place <= length);
            same(rt, stack.insert(meter, place, entry), Ok(()));
        }
        EntryCall::Set(place, entry) => {
            holds(rt, place < length);
            stack.set(place, entry);
        }
        EntryCall::Pop(entry) => same(rt, stack.pop(meter), entry),
        EntryCall::Truncate(to) => stack.truncate(meter, to),
        EntryCall::Clear => stack.clear(meter),
    }
}

const STACK: &[(EntryCall, &[u32], u64)] = &[
    (EntryCall::PushWithin(1, false), &[], 0),
    (EntryCall::Extend(&[1, 2]), &[1, 2], 32),
    (EntryCall::Set(0, 7), &[7, 2], 32),
    (EntryCall::Pop(Some(2)), &[7], 16),
    (EntryCall::Insert(0, 5), &[5, 7], 32),
    (EntryCall::Push(9), &[5, 7, 9], 48),
    (EntryCall::Truncate(1), &[5], 16),
    (EntryCall::PushWithin(6, true), &[5, 6], 32),
    (EntryCall::Clear, &[], 0),
    (EntryCall::Push(3), &[3], 16),
];

#[test]
fn an_entry_of_a_stack_costs_16(rt: HostRuntime) {
    let mut meter = Meter::new(rt.alloc());
    let mut stack = Stack::new(&meter);
    for (call, entries, held) in STACK {
        call_stack(&rt, &mut meter, &mut stack, *call);
        same(&rt, stack.as_slice(), *entries);
        same(&rt, meter.held(), *held);
    }
    assert!(rt; stack.as_slice().len() == 1 && meter.held() == 16);
    stack.release(&mut meter);
    same(&rt, meter.held(), 0);
    same(&rt, meter.peak(), 48);
}

/// Makes the call, which is not refused.
fn call_table(
    rt: &impl Abort,
    meter: &mut Meter<Global>,
    table: &mut Table<u32, Global>,
    call: EntryCall,
)
    requires cost { table.old.cost ≡ 24 }
    ensures cost { table.new.cost ≡ 24 }
{
    counts_of(rt, meter);
    let length = table.as_slice().len();
    holds(rt, length < 1_000);
    holds(rt, 24 * length as u64 <= meter.held());
    match call {
        EntryCall::Push(entry) => same(rt, table.push(meter, entry), Ok(())),
        EntryCall::PushWithin(entry, added) => same(rt, table.push_within(meter, entry), added),
        EntryCall::Extend(entries) => {
            holds(rt, entries.len() < 1_000);
            same(rt, table.extend(meter, entries), Ok(()));
        }
        EntryCall::Insert(place, entry) => {
            holds(rt, place <= length);
            same(rt, table.insert(meter, place, entry), Ok(()));
        }
        EntryCall::Set(place, entry) => {
            holds(rt, place < length);
            table.set(place, entry);
        }
        EntryCall::Pop(entry) => same(rt, table.pop(meter), entry),
        EntryCall::Truncate(to) => table.truncate(meter, to),
        EntryCall::Clear => table.clear(meter),
    }
}

const TABLE: &[(EntryCall, &[u32], u64)] = &[
    (EntryCall::PushWithin(1, false), &[], 0),
    (EntryCall::Push(7), &[7], 24),
    (EntryCall::Set(0, 8), &[8], 24),
    (EntryCall::Extend(&[1, 2]), &[8, 1, 2], 72),
    (EntryCall::Insert(1, 5), &[8, 5, 1, 2], 96),
    (EntryCall::Pop(Some(2)), &[8, 5, 1], 72),
    (EntryCall::Truncate(1), &[8], 24),
    (EntryCall::PushWithin(6, true), &[8, 6], 48),
    (EntryCall::Clear, &[], 0),
    (EntryCall::Push(3), &[3], 24),
];

#[test]
fn an_entry_of_a_table_has_its_cost(rt: HostRuntime) {
    let mut meter = Meter::new(rt.alloc());
    let mut table = Table::new(&meter, 24);
    for (call, entries, held) in TABLE {
        call_table(&rt, &mut meter, &mut table, *call);
        same(&rt, table.as_slice(), *entries);
        same(&rt, meter.held(), *held);
    }
    assert!(rt; table.as_slice().len() == 1 && meter.held() == 24);
    table.release(&mut meter);
    same(&rt, meter.held(), 0);
    same(&rt, meter.peak(), 96);
}

/// Adds an entry and bytes, if both have room.
fn push_both(
    rt: &impl Abort,
    meter: &mut Meter<Global>,
    table: &mut Table<u32, Global>,
    bytes: &mut Buf<Global>,
    added: bool,
)
    requires cost { table.old.cost ≡ 24 }
    ensures cost { table.new.cost ≡ 24 }
{
    counts_of(rt, meter);
    same(rt, table.push_with(bytes, meter, 7, b"ab"), added);
}

/// Adds them where neither has room, where bytes alone have, and where both have.
fn push_thrice(
    rt: &impl Abort,
    meter: &mut Meter<Global>,
    table: &mut Table<u32, Global>,
    bytes: &mut Buf<Global>,
)
    requires cost { table.old.cost ≡ 24 }
{
    push_both(rt, meter, table, bytes, false);
    call_buf(rt, meter, bytes, ByteCall::Extend(b"xyz"));
    call_buf(rt, meter, bytes, ByteCall::Clear);
    push_both(rt, meter, table, bytes, false);
    same(rt, (bytes.as_slice().len(), meter.held()), (0, 0));
    call_table(rt, meter, table, EntryCall::Push(5));
    call_table(rt, meter, table, EntryCall::Clear);
    push_both(rt, meter, table, bytes, true);
    same(rt, table.as_slice(), [7].as_slice());
    same(rt, bytes.as_slice(), b"ab".as_slice());
}

#[test]
fn an_entry_and_bytes_are_added_where_both_have_room(rt: HostRuntime) {
    let mut meter = Meter::new(rt.alloc());
    let mut table = Table::new(&meter, 24);
    let mut bytes = Buf::new(&meter);
    push_thrice(&rt, &mut meter, &mut table, &mut bytes);
    same(&rt, (meter.held(), meter.peak()), (26, 26));
}

/// The greatest limits: 65,535, then 2^30 three times, then 2^48.
const GREATEST: Limits = Limits {
    depth: 65_535,
    scalar: 1_073_741_824,
    symbols: 1_073_741_824,
    value: 1_073_741_824,
    input: 281_474_976_710_656,
};

#[test]
fn limits_are_checked(rt: HostRuntime) {
    assert!(rt; GREATEST.check());
    let above = [
        Limits {
            depth: 65_536,
            ..GREATEST
        },
        Limits {
            scalar: 1_073_741_825,
            ..GREATEST
        },
        Limits {
            symbols: 1_073_741_825,
            ..GREATEST
        },
        Limits {
            value: 1_073_741_825,
            ..GREATEST
        },
        Limits {
            input: 281_474_976_710_657,
            ..GREATEST
        },
    ];
    for limits in above {
        same(&rt, (limits, limits.check()), (limits, false));
    }
}

/// The limits that README names as defaults, and 2^48 bytes of input.
const DEFAULT: Limits = Limits {
    depth: 64,
    scalar: 1_048_576,
    symbols: 1_048_576,
    value: 16_777_216,
    input: 281_474_976_710_656,
};

#[test]
fn default_limits_are_those_that_are_documented(rt: HostRuntime) {
    same(&rt, Limits::default(), DEFAULT);
    assert!(rt; Limits::default().check());
}

#[test]
fn reasons_have_names_and_numbers(rt: HostRuntime) {
    let known = [
        (Reason::Truncated, "Truncated", 1),
        (Reason::BadToken, "BadToken", 12),
        (Reason::CatalogEntry, "CatalogEntry", 23),
    ];
    for (reason, name, number) in known {
        same(&rt, reason.name(), name);
        same(&rt, reason.number(), number);
    }
}

#[test]
fn faults_are_shown(rt: HostRuntime) -> Result<(), Fail> {
    let known = [
        (
            Fault::Refused(Reason::Truncated, 4),
            "refused Truncated at 4",
        ),
        (Fault::Memory, "no memory"),
        (Fault::ReadFault, "read fault"),
        (Fault::WriteFault, "write fault"),
        (Fault::InputLimit, "input limit"),
    ];
    for (fault, shown) in known {
        let text = format!(in rt.alloc(); "{fault}")?;
        same(&rt, text.as_str(), shown);
    }
    Ok(())
}
