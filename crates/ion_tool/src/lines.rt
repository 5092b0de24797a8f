//! The lines that the program writes.
ghost use Rattle.std.specs.Prelude.{◌≡◌, ◌+◌, ◌-◌, ◌^◌, ◌<◌, ◌≤◌, ◌++◌, Err, [], codes, length, option_map};
ghost use Rattle.std.specs.List.{flat_map};
ghost use Rattle.ion_text_out.specs.Escape.{hex_digit, letter};
ghost use Rattle.ion_tool.specs.Serving.{catalog_line, fault_line, fault_text, label_of, line_of};
ghost use Rattle.ion_tool.specs.Serving.{line_with, found_text, reason_text, refusal_text};
ghost use Rattle.ion_tool.specs.Serving.{status_of, unopened_line, Gets, Puts};
ghost use Rattle.ion_tool.specs.Serving.{char_in_name, escape, name_in_line};

use crate::marks::Position;
use arrayvec::{ArrayString, ArrayVec};
use ion_meter::device::{Output, write_all};
use ion_meter::fault::Fault;
use ion_transcode::to::Summary;
use itoa::Buffer;

/// The most bytes that an input may have.
const INPUT_LIMIT: u64 = 281_474_976_710_656;

/// Writes bytes, and says whether that was done.
pub fn put<D: Output>(device: &mut D, bytes: &[u8]) -> bool
    requires { D.failure_count device.old < 2 ^ 64 - 1 }
    ensures { Puts D.Output bytes.now device.old device.new result }
{
    write_all(device, bytes).is_ok()
}

/// The letter of a byte's escape in Ion text, where it has one.
fn letter(byte: u8) -> Option<u8>
    ensures { result ≡ letter byte }
{
    match byte {
        7 => Some(b'a'),
        8 => Some(b'b'),
        9 => Some(b't'),
        10 => Some(b'n'),
        12 => Some(b'f'),
        13 => Some(b'r'),
        11 => Some(b'v'),
        92 => Some(b'\\'),
        _ => None,
    }
}

/// The hex digit of a number.
fn hex_digit(number: u8) -> u8
    requires { number < 16 }
    ensures { result ≡ hex_digit number }
{
    if number < 10 {
        b'0' + number
    } else {
        b'a' - 10 + number
    }
}

/// The escape of a byte in Ion text.
pub fn escape(byte: u8) -> ArrayVec<u8, 4>
    ensures { result.items ≡ escape byte }
{
    let mut text = ArrayVec::new();
    text.push(b'\\');
    match letter(byte) {
        Some(letter) => text.push(letter),
        None => {
            text.push(b'x');
            text.push(hex_digit(byte / 16));
            text.push(hex_digit(byte % 16));
        }
    }
    text
}

/// Writes the escapes of bytes.
fn put_escapes<D: Output>(device: &mut D, bytes: &[u8]) -> bool
    requires { D.failure_count device.old < 2 ^ 64 - 1 }
    ensures { Puts D.Output (flat_map escape bytes.now) device.old device.new result }
{
    for byte in bytes {
        if !put(device, escape(*byte).as_slice()) {
            return false;
        }
    }
    true
}

/// Writes a character of a name.
fn put_char<D: Output>(device: &mut D, character: char) -> bool
    requires { D.failure_count device.old < 2 ^ 64 - 1 }
    ensures { Puts D.Output (char_in_name character) device.old device.new result }
{
    let mut room = [0; 4];
    let bytes = character.encode_utf8(&mut room).as_bytes();
    if character.is_control() || character == '\\' {
        return put_escapes(device, bytes);
    }
    put(device, bytes)
}

/// Writes a name, of which nothing ends the line or controls a terminal.
fn put_name<D: Output>(device: &mut D, name: &str) -> bool
    requires { D.failure_count device.old < 2 ^ 64 - 1 }
    ensures { Puts D.Output (name_in_line name.now) device.old device.new result }
{
    for character in name.chars() {
        if !put_char(device, character) {
            return false;
        }
    }
    true
}

/// Writes a label, where there is one.
fn put_label<D: Output>(device: &mut D, label: Option<&str>) -> bool
    requires { D.failure_count device.old < 2 ^ 64 - 1 }
    ensures { Puts D.Output (label_of (option_map (λ s. s.now) label.entry))
        device.old device.new result }
{
    let Some(word) = label else {
        return true;
    };
    if !put_name(device, word) {
        return false;
    }
    put(device, b": ")
}

/// Writes a line, after a label where there is one.
pub fn put_line<D: Output>(device: &mut D, label: Option<&str>, line: &str) -> bool
    requires { D.failure_count device.old < 2 ^ 64 - 1 }
    ensures { Puts D.Output (label_of (option_map (λ s. s.now) label.entry) ++ line.now)
        device.old device.new result }
{
    if !put_label(device, label) {
        return false;
    }
    put(device, line.as_bytes())
}

/// Writes a reason, where there is one.
fn put_reason<D: Output>(device: &mut D, reason: &str) -> bool
    requires { D.failure_count device.old < 2 ^ 64 - 1 }
    ensures { Puts D.Output (reason_text reason.now) device.old device.new result }
{
    if reason.is_empty() {
        return true;
    }
    if !put(device, b": ") {
        return false;
    }
    put(device, reason.as_bytes())
}

/// Writes a reason, where there is one, and the end of its line.
fn put_end<D: Output>(device: &mut D, reason: &str) -> bool
    requires { D.failure_count device.old < 2 ^ 64 - 1 }
    ensures { Puts D.Output (reason_text reason.now ++ codes "\n") device.old device.new result }
{
    if !put_reason(device, reason) {
        return false;
    }
    put(device, b"\n")
}

/// Says that a file cannot be opened, and why, whether it can be said or not.
pub fn say_unopened<E: Output>(name: &str, reason: &str, err: &mut E)
    requires { E.failure_count err.old < 2 ^ 64 - 1 }
    ensures { Gets E.Output (unopened_line name.now reason.now) err.old err.new }
{
    if !put(err, b"cannot open ") {
        return;
    }
    if !put_name(err, name) {
        return;
    }
    let _ = put_end(err, reason);
}

/// Why a stream is refused, and at which place.
fn refusal(reason: &str, place: u64) -> ArrayString<80>
    requires { length reason.now ≤ 16 }
    ensures text { result.bytes ≡ refusal_text reason.now place }
    ensures short { length result.bytes ≤ 68 }
{
    let mut text = ArrayString::new();
    text.push_str("refused ");
    text.push_str(reason);
    text.push_str(" at ");
    text.push_str(Buffer::new().format(place));
    text
}

/// A text that is known beforehand.
fn phrase(words: &str) -> ArrayString<80>
    requires { length words.now ≤ 16 }
    ensures text { result.bytes ≡ words.now }
    ensures short { length result.bytes ≤ 68 }
{
    let mut text = ArrayString::new();
    text.push_str(words);
    text
}

/// What is said of a fault.
fn text_on(fault: Fault) -> ArrayString<80>
    ensures text { result.bytes ≡ fault_text fault }
    ensures short { length result.bytes ≤ 68 }
{
    match fault {
        Fault::Refused(reason, place) => refusal(reason.name(), place),
        Fault::InputLimit => refusal("InputLimit", INPUT_LIMIT),
        Fault::Memory => phrase("no memory"),
        Fault::ReadFault => phrase("read fault"),
        Fault::WriteFault => phrase("write fault"),
    }
}

/// The line on a fault.
fn line_on(fault: Fault) -> ArrayString<80>
    ensures text { result.bytes ≡ fault_line fault }
    ensures short { length result.bytes ≤ 69 }
{
    let mut line = text_on(fault);
    line.push_str("\n");
    line
}

/// What is said of a position, where there is one: the line and the column, from 1.
fn position_text(position: Option<Position>) -> ArrayString<96>
    ensures text { result.bytes ≡ found_text position }
    ensures short { length result.bytes ≤ 96 }
{
    let mut text = ArrayString::new();
    if let Some(Position { lines, bytes }) = position {
        text.push_str(" (line ");
        text.push_str(Buffer::new().format(1 + u128::from(lines)));
        text.push_str(", column ");
        text.push_str(Buffer::new().format(1 + u128::from(bytes)));
        text.push_str(")");
    }
    text
}

/// The line on a fault, with its position where there is one.
fn line_at(fault: Fault, position: Option<Position>) -> ArrayString<192>
    ensures { result.bytes ≡ line_with fault (found_text position) }
{
    let mut line = ArrayString::new();
    line.push_str(text_on(fault).as_str());
    line.push_str(position_text(position).as_str());
    line.push_str("\n");
    line
}

/// The line on a catalogue that is not loaded.
fn catalog_line(fault: Fault) -> ArrayString<80>
    ensures { result.bytes ≡ catalog_line fault }
{
    match fault {
        Fault::Refused(_, _) => {
            let mut text = ArrayString::new();
            text.push_str("catalog ");
            text.push_str(line_on(fault).as_str());
            text
        }
        Fault::InputLimit | Fault::Memory | Fault::ReadFault | Fault::WriteFault => line_on(fault),
    }
}

/// The status of an answer.
fn status_after(answer: Result<Summary, Fault>) -> u8
    ensures { result ≡ status_of answer }
{
    match answer {
        Ok(_) => 0,
        Err(Fault::Refused(_, _) | Fault::InputLimit) => 1,
        Err(Fault::Memory | Fault::ReadFault | Fault::WriteFault) => 3,
    }
}

/// Says on standard error, after a label where there is one, how a run failed, if it did, and at which
/// position, where that is given; and gives the status of its answer.
pub fn report_at<E: Output>(
    label: Option<&str>,
    answer: Result<Summary, Fault>,
    position: Option<Position>,
    err: &mut E,
) -> u8
    requires { E.failure_count err.old < 2 ^ 64 - 1 }
    ensures status { result ≡ status_of answer }
    ensures said { Gets E.Output
        (line_of (label_of (option_map (λ s. s.now) label.entry)) answer (found_text position))
        err.old err.new }
{
    if let Err(fault) = answer {
        let _ = put_line(err, label, line_at(fault, position).as_str());
    }
    status_after(answer)
}

/// Says on standard error how a run failed, if it did, and gives the status of its answer.
pub fn report<E: Output>(answer: Result<Summary, Fault>, err: &mut E) -> u8
    requires { E.failure_count err.old < 2 ^ 64 - 1 }
    ensures status { result ≡ status_of answer }
    ensures said { Gets E.Output (line_of [] answer []) err.old err.new }
{
    report_at(None, answer, None, err)
}

/// Says on standard error why there is no catalogue, and gives the status.
pub fn report_catalog<E: Output>(fault: Fault, err: &mut E) -> u8
    requires { E.failure_count err.old < 2 ^ 64 - 1 }
    ensures status { result ≡ status_of (Err fault) }
    ensures said { Gets E.Output (catalog_line fault) err.old err.new }
{
    let _ = put(err, catalog_line(fault).as_str().as_bytes());
    status_after(Err(fault))
}
