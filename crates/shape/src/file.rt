// The shape of one file: by the flags of its pointer, and with its bytes, by its entry.
ghost use Rattle.std.specs.Prelude.{◌≡◌, ◌⊎◌, ◌<◌};
ghost use Rattle.book.specs.Decides.{Decides};
ghost use Rattle.book.specs.Files.{Shape, Empty, Contiguous, Indexed, Subindexed, bytes_of};
ghost use Rattle.book.specs.Image.{pages};
ghost use Rattle.book.specs.Words.{vol};
ghost use Rattle.tree.specs.Reach.{entry_in};
ghost use Rattle.shape.specs.Seen.{Known, Recalled, Testing, Tested};
ghost use Rattle.shape.specs.Shapes.{Shaped, EntryRight};

use crate::block::{index_once, subindex_once};
use page::entry::{BYTES, PAGE_BYTES, PAGES, POINTER};
use page::read::Pointer;
use tree::entry::{entry_pointer, entry_two, entry_used};

// Whether a pointer without flags to page t is that of a file of n pages: an empty or a contiguous one.
pub fn run_ok(total: usize, t: usize, n: usize) -> bool
    requires { (t < 4294967296) × (n < 4294967296) }
    ensures { Decides result (Empty t n ⊎ Contiguous total t n) }
{
    if n == 0 {
        return t == 0;
    }
    t != 0 && t + n <= total
}

// Whether page t is the index block of a file of n pages.
fn indexed_ok(img: &[u16], total: usize, seen: &mut [u16], t: usize, n: usize) -> bool
    requires { Testing img.now total (Known img.now seen.old) }
    ensures { Tested (Indexed (pages img.now) (vol img.now) t n) (Known img.now seen.new) result }
{
    0 < n && n <= 512 && index_once(img, total, seen, t, n)
}

// Whether page t is the subindex block of a file of n pages.
fn subindexed_ok(
    img: &[u16],
    total: usize,
    seen: &mut [u16],
    trees: &mut [u16],
    t: usize,
    n: usize,
) -> bool
    requires { Testing img.now total (Recalled img.now seen.old trees.old) }
    ensures { Tested (Subindexed (pages img.now) (vol img.now) t n) (Recalled img.now seen.new trees.new) result }
{
    512 < n && n <= 262144 && subindex_once(img, total, seen, trees, t, n)
}

// Whether a pointer with these flags to page t is that of a file of n pages.
fn shape_ok(
    img: &[u16],
    total: usize,
    seen: &mut [u16],
    trees: &mut [u16],
    pointer: Pointer,
    n: usize,
) -> bool
    requires { Testing img.now total (Recalled img.now seen.old trees.old) × (pointer.page < 4294967296) × (n < 4294967296) }
    ensures { Tested (Shape (pages img.now) (vol img.now) pointer.flags pointer.page n) (Recalled img.now seen.new trees.new) result }
{
    match pointer.flags {
        0 => run_ok(total, pointer.page, n),
        1 => indexed_ok(img, total, seen, pointer.page, n),
        2 => subindexed_ok(img, total, seen, trees, pointer.page, n),
        _ => false,
    }
}

// Whether these are the bytes of n pages.
pub fn bytes_ok(n: u32, bytes: u32) -> bool
    ensures { Decides result (bytes ≡ bytes_of n) }
{
    u64::from(bytes) == PAGE_BYTES as u64 * u64::from(n)
}

// Whether the file in entry e on page q has one of the shapes, its bytes right, all its pages in 1..total-1.
fn file_ok(
    img: &[u16],
    total: usize,
    seen: &mut [u16],
    trees: &mut [u16],
    q: usize,
    e: usize,
) -> bool
    requires { Testing img.now total (Recalled img.now seen.old trees.old) × (q < pages img.now) }
    ensures { Tested (Shaped (pages img.now) (vol img.now) (entry_in (vol img.now) q e)) (Recalled img.now seen.new trees.new) result }
{
    let n = entry_two(img, q, e, PAGES);
    if !bytes_ok(n, entry_two(img, q, e, BYTES)) {
        return false;
    }
    let pointer = entry_pointer(img, q, e, POINTER);
    shape_ok(img, total, seen, trees, pointer, n as usize)
}

// Whether entry e on page q is unused, or its file is right.
pub fn entry_ok(
    img: &[u16],
    total: usize,
    seen: &mut [u16],
    trees: &mut [u16],
    q: usize,
    e: usize,
) -> bool
    requires { Testing img.now total (Recalled img.now seen.old trees.old) × (q < pages img.now) }
    ensures { Tested (EntryRight (pages img.now) (vol img.now) (entry_in (vol img.now) q e)) (Recalled img.now seen.new trees.new) result }
{
    if !entry_used(img, q, e) {
        return true;
    }
    file_ok(img, total, seen, trees, q, e)
}
