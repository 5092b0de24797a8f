//! Bytes in base64.
ghost use Rattle.std.specs.Prelude.{◌≡◌, ◌≤◌, None, length};
ghost use Rattle.base64.specs.Engines.{standard};
ghost use Rattle.base64.specs.GeneralPurpose.{encode_of};
ghost use Rattle.ion_meter.specs.Sinks.{IsPut};

use crate::put::put;
use base64::engine::general_purpose::STANDARD;
use ion_meter::device::Output;
use ion_meter::fault::Fault;
use ion_meter::sink::Sink;
use std::alloc::Allocator;

/// How many bytes are encoded at once: whole threes, so that only the last piece may be padded.
const PIECE: usize = 768;

/// How many characters these are in base64.
const CHARS: usize = 1024;

/// Puts the base64 of one piece, or of less, by some room for its characters.
fn put_piece<O: Output, A: Allocator + Copy>(
    sink: &mut Sink<O, A>,
    bytes: &[u8],
    text: &mut [u8; CHARS],
) -> Result<(), Fault>
    requires well { sink.old.fault ≡ None }
    requires few { length bytes.now ≤ PIECE }
    ensures { IsPut O.Output sink.old sink.new result (encode_of standard bytes.now) }
{
    let len = STANDARD.encode_slice(bytes, text).unwrap();
    put(sink, &text[..len])
}

/// Puts the base64 of these bytes.
pub fn put_base64<O: Output, A: Allocator + Copy>(
    sink: &mut Sink<O, A>,
    bytes: &[u8],
) -> Result<(), Fault>
    requires well { sink.old.fault ≡ None }
    ensures { IsPut O.Output sink.old sink.new result (encode_of standard bytes.now) }
{
    let mut text = [0; CHARS];
    let mut at = 0;
    'pieces: while bytes.len() - at > PIECE {
        if let Err(fault) = put_piece(sink, &bytes[at..at + PIECE], &mut text) {
            return Err(fault);
        }
        at += PIECE;
    }
    put_piece(sink, &bytes[at..], &mut text)
}
