//! Copies of bytes.
ghost use Rattle.std.specs.Prelude.{◌≡◌, ◌+◌, ◌≤◌, length};

/// Copies bytes: at most 32 as two moves of a size that is known here, which may overlap, so that
/// no call is made.
#[inline(always)]
pub(crate) fn copy(to: &mut [u8], from: &[u8])
    requires { length to.old ≡ length from.now }
    ensures { to.new ≡ from.now }
{
    if from.len() > 32 {
        to.copy_from_slice(from);
    } else if from.len() >= 16 {
        copy_ends::<16>(to, from);
    } else if from.len() >= 8 {
        copy_ends::<8>(to, from);
    } else if from.len() >= 4 {
        copy_ends::<4>(to, from);
    } else if from.len() >= 2 {
        copy_ends::<2>(to, from);
    } else if from.len() == 1 {
        to[0] = from[0];
    }
}

// Copies the first and the last bytes, so many of each, which are all of them. They are read before
// any is written, so that nothing has to look whether the two places overlap.
#[inline(always)]
fn copy_ends<const SIZE: usize>(to: &mut [u8], from: &[u8])
    requires least { SIZE ≤ length from.now }
    requires most { length from.now ≤ SIZE + SIZE }
    requires same { length to.old ≡ length from.now }
    ensures { to.new ≡ from.now }
{
    let end = from.len();
    let mut first = [0; SIZE];
    let mut last = [0; SIZE];
    first.copy_from_slice(&from[..SIZE]);
    last.copy_from_slice(&from[end - SIZE..end]);
    to[..SIZE].copy_from_slice(&first);
    to[end - SIZE..end].copy_from_slice(&last);
}
