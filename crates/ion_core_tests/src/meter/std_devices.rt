// The devices over readers and writers of std, that they fail at no length.
use super::many_bytes;
use crate::same::{holds, same};
use ion_meter::device::{Input, Output};
use ion_meter::stream::{FromRead, ToWrite};
use std::alloc::Global;
use std::process::Abort;
use std::test::Fail;

/// Lengths on both sides of a window's 4,096, odd and even.
const LENGTHS: [usize; 8] = [1, 2, 3, 700, 4_001, 4_095, 4_097, 10_000];

/// Reads these pieces by one call each, and then the end.
fn read_by(rt: &impl Abort, into: &mut [u8], bytes: &[u8], length: usize) {
    let mut device = FromRead::new(bytes);
    holds(rt, length > 0);
    for piece in bytes.chunks(length) {
        holds(rt, piece.len() <= into.len());
        read_piece(rt, &mut device, &mut into[..piece.len()], piece);
    }
    read_piece(rt, &mut device, into, b"");
}

/// Reads this piece by one call.
fn read_piece<I: Input>(rt: &impl Abort, device: &mut I, into: &mut [u8], piece: &[u8]) {
    holds(rt, device.failures() == 0);
    let read = device.read(into);
    holds(rt, matches!(read, Ok(count) if count == piece.len()));
    holds(rt, piece.len() <= into.len());
    same(rt, &into[..piece.len()], piece);
}

/// Writes this piece by one call.
fn write_piece<O: Output>(rt: &impl Abort, device: &mut O, piece: &[u8]) {
    holds(rt, device.failures() == 0);
    let written = device.write(piece);
    holds(rt, matches!(written, Ok(count) if count == piece.len()));
}

/// Writes the bytes in pieces of this length.
fn write_by(rt: &impl Abort, alloc: Global, bytes: &[u8], length: usize) {
    let mut device = ToWrite::new(Vec::new(alloc));
    holds(rt, length > 0);
    for piece in bytes.chunks(length) {
        write_piece(rt, &mut device, piece);
    }
    write_piece(rt, &mut device, b"");
    holds(rt, device.failures() == 0);
    same(rt, device.into_inner().as_slice(), bytes);
}

#[test]
fn readers_and_writers_of_std_fail_at_no_length(rt: HostRuntime) -> Result<(), Fail> {
    let bytes = many_bytes(rt.alloc(), 10_000)?;
    let mut into = many_bytes(rt.alloc(), 10_000)?;
    for length in LENGTHS {
        assert!(rt; length <= into.as_slice().len());
        read_by(
            &rt,
            &mut into.as_mut_slice()[..length],
            bytes.as_slice(),
            length,
        );
        write_by(&rt, rt.alloc(), bytes.as_slice(), length);
    }
    Ok(())
}
