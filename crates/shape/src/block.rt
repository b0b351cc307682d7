// The blocks of a file: whether the tree under an index or subindex block has exactly the positions 0 to n - 1, all its pages in 1..P-1.
ghost use Rattle.std.specs.Prelude.{◌≡◌, ◌+◌, ◌*◌, ◌/◌, ◌≤◌, ◌<◌, length};
ghost use Rattle.book.specs.Decides.{Decides};
ghost use Rattle.book.specs.Image.{pages, Whole};
ghost use Rattle.book.specs.Words.{vol};
ghost use Rattle.tree.specs.Blocks.{Unlinked, share as share_of};
ghost use Rattle.shape.specs.Seen.{Known, Subindex, Recalled, Testing, Tested};
ghost use Rattle.shape.specs.Shapes.{Filled, Indexes};

use bits::marks::mark;
use page::WORDS;
use page::read::{Pointer, dword};
use tree::block::{filled, unlinked};
use tree::root::root_page;

// Whether page b is an index block of n pages.
pub fn index_ok(img: &[u16], total: usize, b: usize, n: usize) -> bool
    requires { Whole img.now × (total ≡ pages img.now) × (0 < n) × (n ≤ 512) }
    ensures { Decides result (Filled (pages img.now) (vol img.now) 1 b n) }
{
    if b == 0 || total <= b {
        return false;
    }
    let a = WORDS * b;
    filled(&img[a..a + WORDS], n, 1, total)
}

// Of n positions, those under slot k of a subindex block.
fn share(n: usize, k: usize) -> usize
    requires { (k < 512) × (k * 512 < n) }
    ensures { (result ≡ share_of 1 n k) × (0 < result) × (result ≤ 512) }
{
    (n - k * 512).min(512)
}

// Whether page b is an index block of n pages. A full one is marked as seen, and not read again: files may share blocks until rule 8 is judged.
pub fn index_once(img: &[u16], total: usize, seen: &mut [u16], b: usize, n: usize) -> bool
    requires { Testing img.now total (Known img.now seen.old) × (0 < n) × (n ≤ 512) }
    ensures { Tested (Filled (pages img.now) (vol img.now) 1 b n) (Known img.now seen.new) result }
{
    if n < 512 {
        return index_ok(img, total, b, n);
    }
    if total <= b {
        return false;
    }
    if !mark(seen, b) {
        return true;
    }
    index_ok(img, total, b, n)
}

// Whether pointers 0 to m - 1 of a subindex block, the slots that n positions need, lead to index blocks of their shares.
fn indexes_ok(
    img: &[u16],
    total: usize,
    seen: &mut [u16],
    block: &[u16],
    n: usize,
    m: usize,
) -> bool
    requires { Testing img.now total (Known img.now seen.old) × (length block.now ≡ 1024) × (n ≤ 262144) × (m ≡ (n + 511) / 512) }
    ensures { Tested (Indexes (pages img.now) (vol img.now) block.now n m) (Known img.now seen.new) result }
{
    for k in 0..m {
        if !index_once(img, total, seen, dword(block, 2 * k) as usize, share(n, k)) {
            return false;
        }
    }
    true
}

// Whether a subindex block has n positions under it.
fn subindex_block(img: &[u16], total: usize, seen: &mut [u16], block: &[u16], n: usize) -> bool
    requires { Testing img.now total (Known img.now seen.old) × (length block.now ≡ 1024) × (n ≤ 262144) }
    ensures { Tested (Indexes (pages img.now) (vol img.now) block.now n ((n + 511) / 512)
        × Unlinked block.now ((n + 511) / 512) 512) (Known img.now seen.new) result }
{
    let m = n.div_ceil(512);
    indexes_ok(img, total, seen, block, n, m) && unlinked(block, m, 512)
}

// Whether page t is a subindex block of n pages.
fn subindex_ok(img: &[u16], total: usize, seen: &mut [u16], t: usize, n: usize) -> bool
    requires { Testing img.now total (Known img.now seen.old) × (512 < n) × (n ≤ 262144) }
    ensures { Tested (Filled (pages img.now) (vol img.now) 2 t n) (Known img.now seen.new) result }
{
    if t == 0 || total <= t {
        return false;
    }
    let a = WORDS * t;
    subindex_block(img, total, seen, &img[a..a + WORDS], n)
}

// Whether subindex block t, under which the tree is right, has n pages under it: the last one is there, and no next one.
fn count_ok(img: &[u16], t: usize, n: usize) -> bool
    requires { Subindex img.now t × (512 < n) × (n ≤ 262144) }
    ensures { Decides result (Filled (pages img.now) (vol img.now) 2 t n) }
{
    let tree = Pointer { flags: 2, page: t };
    root_page(img, tree, 0, n - 1) != 0 && root_page(img, tree, 0, n) == 0
}

// Whether page t is a subindex block of n pages. A right one is marked, and gone through only once: when it is met again, the count alone is compared.
pub fn subindex_once(
    img: &[u16],
    total: usize,
    seen: &mut [u16],
    trees: &mut [u16],
    t: usize,
    n: usize,
) -> bool
    requires { Testing img.now total (Recalled img.now seen.old trees.old) × (512 < n) × (n ≤ 262144) }
    ensures { Tested (Filled (pages img.now) (vol img.now) 2 t n) (Recalled img.now seen.new trees.new) result }
{
    if total <= t {
        return false;
    }
    if !mark(trees, t) {
        return count_ok(img, t, n);
    }
    subindex_ok(img, total, seen, t, n)
}
