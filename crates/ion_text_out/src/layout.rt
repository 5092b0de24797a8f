//! Layouts: what stands between the parts of a text.
ghost use Rattle.std.specs.Prelude.{◌≡◌, ◌+◌, ◌≤◌, Bool, true, length};
ghost use Rattle.ion_text_out.specs.Layout.{Layout, before_next, canonical, comma_before, pretty};
ghost use Rattle.ion_text_out.specs.Writing.{byte_in, gap_text};

use ion_value::ion_type::Kind;

/// How many containers may be open where blanks are put by one copy.
pub const LEVELS: usize = 128;

/// The most bytes that a gap has then: a mark, the end of a line, and two blanks for each.
const LONGEST: usize = 258;

/// What stands between two parts: a byte or none, and then perhaps a new line, with two blanks for
/// each of so many open containers.
#[derive(Clone, Copy)]
pub struct Gap {
    pub mark: Option<u8>,
    pub line: Option<usize>,
}

impl Gap {
    /// Whether this is short, and there is room for it and for so many bytes more. A line is counted
    /// as the longest.
    #[inline(always)]
    pub fn fits(self, more: usize, room: usize) -> bool
        ensures room { result ≡ true → length (gap_text self) + more ≤ room }
        ensures short { result ≡ true → length (gap_text self) ≤ 258 }
    {
        if room <= more {
            return false;
        }
        match self.line {
            None => true,
            Some(depth) => depth <= LEVELS && LONGEST <= room - more,
        }
    }
}

/// What a text has between its parts. It is a type of its own for each layout, so that a writer of
/// one has no code of the others.
pub trait Layout {
    ghost layout: { Layout };

    /// What stands before a member of a container, which is the first or not, with so many
    /// containers open around it.
    fn before_member(kind: Kind, first: bool, depth: usize) -> Gap
        ensures { gap_text result ≡ layout.before_member kind first depth };

    /// Whether what may stand before a member with so many containers open around it is short, and
    /// there is room for it, for what stands after a name, and for three bytes more.
    ///
    /// It is asked before `before_member`: what that answers would be kept in registers over the
    /// branch, which costs 2 % of all instructions.
    fn has_room(depth: usize, room: usize) -> bool
        ensures room { result ≡ true → (kind : Kind) (first : Bool)
            → length (layout.before_member kind first depth) + length layout.after_name + 3
            ≤ room }
        ensures short { result ≡ true → (kind : Kind) (first : Bool)
            → length (layout.before_member kind first depth) ≤ 258 };

    /// What stands between the name of a field and its value.
    fn after_name() -> &'static [u8]
        ensures { result.now ≡ layout.after_name };

    /// What stands before the bracket that closes a container, with so many open around it.
    fn before_closer(empty: bool, depth: usize) -> Gap
        ensures { gap_text result ≡ layout.before_closer empty depth };
}

// The separator of canonical text before a member.
#[inline(always)]
fn separator(kind: Kind, first: bool) -> Option<u8>
    ensures { byte_in result ≡ before_next kind first }
{
    if first {
        return None;
    }
    match kind {
        Kind::Sexp => Some(b' '),
        Kind::List | Kind::Struct => Some(b','),
    }
}

// The comma of pretty text before a member.
#[inline(always)]
fn comma(kind: Kind, first: bool) -> Option<u8>
    ensures { byte_in result ≡ comma_before kind first }
{
    if first {
        return None;
    }
    match kind {
        Kind::Sexp => None,
        Kind::List | Kind::Struct => Some(b','),
    }
}

/// Canonical text: each value on one line.
pub struct Canonical;

impl Layout for Canonical {
    ghost layout = { canonical };

    #[inline(always)]
    fn before_member(kind: Kind, first: bool, _depth: usize) -> Gap {
        Gap {
            mark: separator(kind, first),
            line: None,
        }
    }

    #[inline(always)]
    fn has_room(_depth: usize, room: usize) -> bool {
        5 <= room
    }

    #[inline(always)]
    fn after_name() -> &'static [u8] {
        b":"
    }

    #[inline(always)]
    fn before_closer(_empty: bool, _depth: usize) -> Gap {
        Gap {
            mark: None,
            line: None,
        }
    }
}

/// Pretty text: each member of a container on a line of its own.
pub struct Pretty;

impl Layout for Pretty {
    ghost layout = { pretty };

    #[inline(always)]
    fn before_member(kind: Kind, first: bool, depth: usize) -> Gap {
        Gap {
            mark: comma(kind, first),
            line: Some(depth),
        }
    }

    #[inline(always)]
    fn has_room(depth: usize, room: usize) -> bool {
        depth <= LEVELS && LONGEST + 5 <= room
    }

    #[inline(always)]
    fn after_name() -> &'static [u8] {
        b": "
    }

    #[inline(always)]
    fn before_closer(empty: bool, depth: usize) -> Gap {
        if empty {
            return Gap {
                mark: None,
                line: None,
            };
        }
        Gap {
            mark: None,
            line: Some(depth),
        }
    }
}
