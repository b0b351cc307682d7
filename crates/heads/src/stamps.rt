// A table of stamps that tells which names were met before: equal names have the same two slots, and others seldom both.
ghost use Rattle.std.specs.Prelude.{◌≡◌, ◌+◌, ◌*◌, ◌/◌, ◌%◌, ◌≤◌, ◌<◌, length, get_or, set};
ghost use Rattle.sums.specs.Search.{pick};
ghost use Rattle.book.specs.Words.{vol};
ghost use Rattle.book.specs.Names.{stored};
ghost use Rattle.book.specs.Image.{pages};
ghost use Rattle.book.specs.Decides.{Decides};
ghost use Rattle.tree.specs.Reach.{entry_in};
ghost use Rattle.heads.specs.Stamps.{mix, hash_of, title_hash, stamp_of};
ghost use Rattle.heads.specs.Twins.{TypeBytes};

use page::entry::{EntryPlace, NAME, TYPE};
use page::names::{cut, ends_in};
use page::read::word_at;

pub(crate) const SLOTS: usize = 4096;

// A table without stamps.
pub fn room() -> [u16; 4096]
    ensures { length result ≡ 4096 }
{
    [0; SLOTS]
}

// The number of one word more.
fn mixed(h: usize, x: u16) -> usize
    requires { h < 4294967296 }
    ensures { (result ≡ mix h x) × (result < 4294967296) }
{
    (h + usize::from(x)) * 1597334677 % 4294967296
}

// The number of the word in which a name ends: what is left of it, if anything is.
fn last_mixed(h: usize, x: u16) -> usize
    requires { h < 4294967296 }
    ensures { (result ≡ pick x (mix h x) h) × (result < 4294967296) }
{
    if x == 0 {
        return h;
    }
    mixed(h, x)
}

// The number of h and the name in the n bytes from word k of page p on, up to its end.
fn hash_at(img: &[u16], p: usize, k: usize, n: usize, h: usize) -> usize
    requires { (1024 * p + 1024 ≤ length img.now) × (n % 2 ≡ 0) × (k + n / 2 ≤ 1024) × (h < 4294967296) }
    ensures { (result ≡ hash_of h (stored n (vol img.now p) k)) × (result < 4294967296) }
{
    let mut z = h;
    for i in 0..n / 2 {
        let x = word_at(img, p, k + i);
        if ends_in(x) {
            return last_mixed(z, cut(x));
        }
        z = mixed(z, x);
    }
    z
}

// The number of the name of entry e, which is on page q, and of its type in n bytes.
pub(crate) fn hash_of(img: &[u16], q: usize, e: usize, n: usize) -> usize
    requires { (0 < q) × (q < pages img.now) × TypeBytes n }
    ensures { (result ≡ title_hash n (entry_in (vol img.now) q e)) × (result < 4294967296) }
{
    let w = EntryPlace::of(e).word;
    let h = hash_at(img, q, w + NAME, 16, 0);
    hash_at(img, q, w + TYPE, n, h)
}

// Whether slot h has the stamp s; it has it afterwards.
pub(crate) fn stamp(table: &mut [u16; 4096], h: usize, s: u16) -> bool
    requires { (length table.old ≡ 4096) × (h < 4096) }
    ensures { Decides result (get_or table.old h 0 ≡ s) × (table.new ≡ set table.old h s) }
{
    let old = table[h];
    table[h] = s;
    old == s
}

// The stamp of the 256 entries from `base` on.
pub(crate) fn stamp_of(base: usize) -> u16
    requires { base < 65536 }
    ensures { result ≡ stamp_of base }
{
    // A cast, since it always fits: u16::try_from would ask for an answer that is never given.
    (base / 256 + 1) as u16
}
