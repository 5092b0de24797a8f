//! Long values, and devices that fail.

use super::{Part, expect_text, put_to};
use ion_meter::fault::Fault;
use ion_text_out::layout::Canonical;
use std::io;
use std::io::Write;
use std::test::Fail;

/// A device that takes so many bytes, and fails from then on.
#[derive(Drop)]
struct Short {
    taken: Vec<u8>,
    room: usize,
}

impl Write for Short {
    fn write(&mut self, bytes: &[u8]) -> io::Result<usize> {
        let n = bytes.len().min(self.room);
        if n == 0 || self.taken.extend_from_slice(&bytes[..n]).is_err() {
            return Err(io::ErrorKind::Other.into());
        }
        self.room -= n;
        Ok(n)
    }

    fn flush(&mut self) -> io::Result<()> {
        Ok(())
    }
}

/// More bytes than a window has.
const LONG: [u8; 5_000] = [b'a'; 5_000];

/// One byte more than is encoded at once.
const PIECE: [u8; 769] = [0xFF; 769];

/// The base64 of the whole threes of that.
const ENCODED: [u8; 1_024] = [b'/'; 1_024];

#[test]
fn puts_long_values(rt: HostRuntime) -> Result<(), Fail> {
    let mut want = Vec::new(rt.alloc());
    want.extend_from_slice(b"{{")?;
    want.extend_from_slice(&ENCODED)?;
    want.extend_from_slice(b"/w==}}\n'")?;
    want.extend_from_slice(&LONG)?;
    want.extend_from_slice(b"\"'\n")?;
    let mut text = Vec::new(rt.alloc());
    text.extend_from_slice(&LONG)?;
    text.extend_from_slice(b"\"")?;
    let steps = [
        (None, [].as_slice(), Part::Blob(&PIECE)),
        (None, [].as_slice(), Part::Symbol(text.as_slice())),
    ];
    expect_text(&rt, rt.alloc(), &steps, want.as_slice());
    Ok(())
}

#[test]
fn answers_what_a_device_fails_by(rt: HostRuntime) -> Result<(), Fail> {
    let mut whole = Vec::new(rt.alloc());
    whole.extend_from_slice(b"1\n\"")?;
    whole.extend_from_slice(&LONG)?;
    let steps = [
        (None, [].as_slice(), Part::Int(b"1")),
        (None, [].as_slice(), Part::Text(&LONG)),
    ];
    for room in [0, 3, 4_097] {
        let device = Short {
            taken: Vec::new(rt.alloc()),
            room,
        };
        let device = put_to::<Canonical, Short>(
            &rt,
            rt.alloc(),
            device,
            &steps,
            Err(Fault::WriteFault),
        );
        assert_eq!(rt; device.taken.len(), room);
        assert!(rt; whole.as_slice().starts_with(device.taken.as_slice()));
    }
    Ok(())
}
