// A word and the one above it as one number of 32 bits, in which runs of up to 16 pages that start in the lower word lie whole.
ghost use Rattle.std.specs.Prelude.{◌≡◌, ℕ, suc, ◌+◌, ◌-◌, ◌*◌, ◌%◌, ◌≤◌, ◌<◌, min};
ghost use Rattle.book.specs.Bits.{digit};
ghost use Rattle.bits.specs.Run.{StartIn};

use crate::word::{FULL, zeros_above};

// The pair of w and, above it, the lower word of x.
pub(crate) fn next_pair(x: u32, w: u16) -> u32
    ensures { result ≡ x % 65536 * 65536 + w }
{
    x % 65536 * 65536 + u32::from(w)
}

// The lower word.
fn lower(x: u32) -> u16
    ensures { result ≡ x % 65536 }
{
    (x % 65536) as u16
}

// The number with a 1 where x has a 1 and the next bit to the left is 1 too.
fn with_next(x: u32) -> u32
    ensures { (j : ℕ) → digit j result ≡ min (digit j x) (digit (suc j) x) }
{
    x & (x >> 1)
}

// The highest start in the lower word of n free pages in a row.
pub(crate) fn start_in(x: u32, n: usize) -> Option<usize>
    requires { (0 < n) × (n ≤ 16) }
    ensures { StartIn x n result }
{
    if lower(x) == FULL {
        return None;
    }
    let mut g = !x;
    for _ in 1..n {
        g = with_next(g);
        if lower(g) == 0 {
            return None;
        }
    }
    15usize.checked_sub(zeros_above(lower(g)))
}
