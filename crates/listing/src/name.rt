// Names and types as they are stored, written up to their end.
ghost use Rattle.std.specs.Prelude.{◌≡◌, ◌+◌, ◌*◌, ◌/◌, ◌%◌, ◌≤◌, ◌<◌, length};
ghost use Rattle.book.specs.Words.{vol};
ghost use Rattle.book.specs.Names.{stored};
ghost use Rattle.book.specs.Image.{pages};
ghost use Rattle.tree.specs.Reach.{entry_in};
ghost use Rattle.listing.specs.Wrote.{far, Wrote};

use crate::put::put;
use page::entry::EntryPlace;
use page::names::{byte_at, end_at};

// The name in the n bytes from word k of page p on.
pub fn put_name(img: &[u16], out: &mut [u8], at: usize, p: usize, k: usize, n: usize) -> usize
    requires { (1024 * p + 1024 ≤ length img.now) × (n % 2 ≡ 0) × (k + n / 2 ≤ 1024) × (at < 5 * far) }
    ensures { Wrote (stored n (vol img.now p) k) out.old at out.new result × (result ≤ at + n) }
{
    let l = end_at(img, p, k, n);
    for i in 0..l {
        put(out, at + i, byte_at(img, p, k, i));
    }
    at + l
}

// The name in the m bytes from word k of entry n on page q on.
pub fn put_entry_name(
    img: &[u16],
    out: &mut [u8],
    at: usize,
    q: usize,
    n: usize,
    k: usize,
    m: usize,
) -> usize
    requires { (0 < q) × (q < pages img.now) × (m % 2 ≡ 0) × (k + m / 2 ≤ 32) × (at < 5 * far) }
    ensures { Wrote (stored m (entry_in (vol img.now) q n) k) out.old at out.new result × (result ≤ at + m) }
{
    put_name(img, out, at, q, EntryPlace::of(n).word + k, m)
}
