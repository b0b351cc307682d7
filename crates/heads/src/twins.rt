// Equal names: used entries of one file that have the same name and, in n bytes, the same type: 4 for files, 0 for users. The file is given by its flags and top page.
ghost use Rattle.std.specs.Prelude.{◌≡◌, true, ◌+◌, ◌%◌, ◌≤◌, ◌<◌, length};
ghost use Rattle.book.specs.Words.{vol};
ghost use Rattle.book.specs.Trees.{root_by};
ghost use Rattle.book.specs.Entries.{entry, used};
ghost use Rattle.book.specs.Decides.{Decides};
ghost use Rattle.tree.specs.Reach.{Reach, entry_in};
ghost use Rattle.heads.specs.Span.{Span};
ghost use Rattle.heads.specs.Stamps.{Stamped};
ghost use Rattle.heads.specs.Twins.{TypeBytes, EndsAt, Twins, Fresh, Apart, On};

use crate::stamps::{SLOTS, hash_of, stamp, stamp_of};
use crate::stored::{entry_end, entry_same};
use page::entry::{NAME, TYPE};
use page::read::Pointer;
use tree::entry::entry_used;
use tree::root::root_page;

// Whether entry x is a twin of the used entry y, which is on page q, and whose name and type end at bytes l and m.
fn twin(
    img: &[u16],
    pointer: Pointer,
    n: usize,
    q: usize,
    y: usize,
    x: usize,
    l: usize,
    m: usize,
) -> bool
    requires { On img.now (root_by pointer.flags pointer.page 0) q y × (0 < used (entry (vol img.now) (root_by pointer.flags pointer.page 0) y)) × TypeBytes n × EndsAt (entry_in (vol img.now) q y) n l m }
    ensures { Decides result (Twins (entry (vol img.now) (root_by pointer.flags pointer.page 0)) n x y) }
{
    let p = root_page(img, pointer, 0, x / 32);
    if p == 0 {
        return false;
    }
    entry_used(img, p, x) && entry_same(img, p, x, q, y, n, l, m)
}

// Whether no entry from `base` on before the used entry y, which is on page q, is its twin.
pub fn fresh(img: &[u16], pointer: Pointer, n: usize, base: usize, q: usize, y: usize) -> bool
    requires { On img.now (root_by pointer.flags pointer.page 0) q y × (0 < used (entry (vol img.now) (root_by pointer.flags pointer.page 0) y)) × TypeBytes n × (base ≤ y) }
    ensures { Decides result (Fresh (entry (vol img.now) (root_by pointer.flags pointer.page 0)) n base y) }
{
    let l = entry_end(img, q, y, NAME, 16);
    let m = entry_end(img, q, y, TYPE, n);
    (base..y).all(|x| !twin(img, pointer, n, q, y, x, l, m))
}

// The same of any entry y on page q: an unused one has no twin, and one that has a slot without this stamp is the first of its name.
fn entry_apart(
    img: &[u16],
    table: &mut [u16; 4096],
    pointer: Pointer,
    n: usize,
    base: usize,
    q: usize,
    y: usize,
) -> bool
    requires { On img.now (root_by pointer.flags pointer.page 0) q y × TypeBytes n × (base ≤ y) × (y < 65536) × Stamped (entry (vol img.now) (root_by pointer.flags pointer.page 0)) n base y table.old }
    ensures { Decides result (Fresh (entry (vol img.now) (root_by pointer.flags pointer.page 0)) n base y) × Stamped (entry (vol img.now) (root_by pointer.flags pointer.page 0)) n base (y + 1) table.new }
{
    if !entry_used(img, q, y) {
        return true;
    }
    let h = hash_of(img, q, y, n);
    let s = stamp_of(base);
    let low = stamp(table, h / 256 % SLOTS, s);
    let high = stamp(table, h / 1048576, s);
    // Two returns: as `!low || !high || ..`, which was tried, both ways are one goal, and the check leaves it.
    if !low {
        return true;
    }
    if !high {
        return true;
    }
    fresh(img, pointer, n, base, q, y)
}

// The same of the 32 entries from `first` on, a page of them. An absent page has no used entries.
fn page_apart(
    img: &[u16],
    table: &mut [u16; 4096],
    pointer: Pointer,
    n: usize,
    base: usize,
    first: usize,
) -> bool
    requires { Reach img.now (root_by pointer.flags pointer.page 0) × TypeBytes n × (base ≤ first) × (first % 32 ≡ 0) × (first < 65536) × Stamped (entry (vol img.now) (root_by pointer.flags pointer.page 0)) n base first table.old }
    ensures { Decides result (Span (Fresh (entry (vol img.now) (root_by pointer.flags pointer.page 0)) n base) first (first + 32)) × (result ≡ true → Stamped (entry (vol img.now) (root_by pointer.flags pointer.page 0)) n base (first + 32) table.new) }
{
    let q = root_page(img, pointer, 0, first / 32);
    if q == 0 {
        return true;
    }
    for y in first..first + 32 {
        if !entry_apart(img, table, pointer, n, base, q, y) {
            return false;
        }
    }
    true
}

// Whether no two of the 256 entries from `base` on are twins. The table may be lent again for the next 256.
pub fn apart(img: &[u16], table: &mut [u16; 4096], pointer: Pointer, n: usize, base: usize) -> bool
    requires { Reach img.now (root_by pointer.flags pointer.page 0) × TypeBytes n × (base % 32 ≡ 0) × (base + 256 ≤ 65536) × (length table.old ≡ 4096) }
    ensures { Decides result (Apart (entry (vol img.now) (root_by pointer.flags pointer.page 0)) n base (base + 256)) × (result ≡ true → length table.new ≡ 4096) }
{
    for k in 0..8 {
        if !page_apart(img, table, pointer, n, base, base + 32 * k) {
            return false;
        }
    }
    true
}
