//! Tables that tests take apart: a row a line, with a `|` after each field.
//!
//! A table is one text, since the prover takes a text of any length as one term, and each number,
//! text and tuple of a constant as one more. A line that begins with `#` is a comment.

use ion_meter::limits::Limits;

/// Whether a line is a row, and neither empty nor a comment.
pub fn is_row(line: &str) -> bool {
    !line.is_empty() && !line.starts_with('#')
}

/// The fields of a row that are not read yet, each with its `|`.
#[derive(Clone, Copy)]
pub struct Fields<'a> {
    left: &'a str,
    /// Whether each field that was read was there, and was what it was read as.
    is_right: bool,
}

impl<'a> Fields<'a> {
    /// All fields of a row.
    pub fn of(row: &'a str) -> Fields<'a> {
        Fields {
            left: row,
            is_right: true,
        }
    }

    /// The next field as it stands, and nothing where it is missing.
    pub fn text(&mut self) -> &'a str {
        match self.left.split_once('|') {
            Some((field, left)) => {
                self.left = left;
                field
            }
            None => {
                self.is_right = false;
                ""
            }
        }
    }

    /// The number in the next field, and 0 where none is there.
    pub fn number(&mut self) -> u64 {
        match self.text().parse::<u64>() {
            Ok(number) => number,
            Err(_) => {
                self.is_right = false;
                0
            }
        }
    }

    /// The limits in the fields that are left, as `depth=1`; the others are those of `base`.
    pub fn limits(&mut self, base: Limits) -> Limits {
        let mut limits = base;
        for field in self.left.split('|') {
            match with(limits, field) {
                Some(more) => limits = more,
                None => self.is_right = false,
            }
        }
        self.left = "";
        limits
    }

    /// Whether each field that was read was there, and was what it was read as.
    pub fn is_right(self) -> bool {
        self.is_right
    }

    /// Whether all fields were read, and each was what it was read as.
    pub fn is_read(self) -> bool {
        self.is_right && self.left.is_empty()
    }
}

/// Limits with the one that a field has, if it is not empty.
fn with(limits: Limits, field: &str) -> Option<Limits> {
    if field.is_empty() {
        return Some(limits);
    }
    let (name, digits) = field.split_once('=')?;
    let number = digits.parse::<u64>().ok()?;
    match name {
        "depth" => Some(Limits {
            depth: u32::try_from(number).unwrap_or(0),
            ..limits
        }),
        "scalar" => Some(Limits {
            scalar: number,
            ..limits
        }),
        "symbols" => Some(Limits {
            symbols: number,
            ..limits
        }),
        "value" => Some(Limits {
            value: number,
            ..limits
        }),
        "input" => Some(Limits {
            input: number,
            ..limits
        }),
        _ => None,
    }
}
