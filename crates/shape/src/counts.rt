// The pages of files, summed from the entries alone: rule 7 has seen that each file has the blocks and pages that its count asks for.
ghost use Rattle.std.specs.Prelude.{◌≡◌, ◌*◌, ◌≤◌, ◌<◌};
ghost use Rattle.book.specs.Entries.{object_page, object_pages};
ghost use Rattle.book.specs.Files.{cost};
ghost use Rattle.book.specs.Image.{pages};
ghost use Rattle.book.specs.Words.{vol};
ghost use Rattle.laws.specs.Count.Charge.{charge, entry_pages};
ghost use Rattle.tree.specs.Ends.{Ends};
ghost use Rattle.tree.specs.Reach.{entry_in};
ghost use Rattle.shape.specs.Counts.{pages_at, pages_of};
ghost use Rattle.shape.specs.Objects.{ObjectsAt};

use page::entry::{PAGES, POINTER};
use page::read::Pointer;
use tree::entry::{entry_flags, entry_two, entry_used};
use tree::root::root_page;

// The data pages, index blocks and subindex block of an indexed file of n pages.
fn cost_of(n: u64) -> u64
    requires { n < 4294967296 }
    ensures { (result ≡ cost n) × (result < 8589934592) }
{
    let blocks = n.div_ceil(512);
    if n <= 512 {
        return n + blocks;
    }
    n + blocks + 1
}

// The pages of a file of n pages, by the flags of its pointer.
fn charge_of(flags: u16, n: u64) -> u64
    requires { n < 4294967296 }
    ensures { (result ≡ charge flags n) × (result < 8589934592) }
{
    if flags == 0 {
        return n;
    }
    cost_of(n)
}

// The pages of the file in entry e on page q, none of an unused one.
fn entry_pages(img: &[u16], q: usize, e: usize) -> u64
    requires { q < pages img.now }
    ensures { (result ≡ entry_pages (entry_in (vol img.now) q e)) × (result < 8589934592) }
{
    if !entry_used(img, q, e) {
        return 0;
    }
    let flags = entry_flags(img, q, e, POINTER);
    charge_of(flags, u64::from(entry_two(img, q, e, PAGES)))
}

// The pages of the files whose entries are on object page q, the one at position n.
fn page_pages(img: &[u16], q: usize, n: usize) -> u64
    requires { (q < pages img.now) × (n < object_pages) × (q ≡ object_page (vol img.now) (32 * n)) }
    ensures { (result ≡ pages_at (vol img.now) n) × (result ≤ 32 * 8589934592) }
{
    let e = 32 * n;
    let mut sum: u64 = 0;
    for k in 0..32 {
        sum += entry_pages(img, q, e + k);
    }
    sum
}

// The pages of the files whose entries are at position n of the object file, whose pointer has these flags and this page.
fn position_pages(img: &[u16], pointer: Pointer, n: usize) -> u64
    requires { ObjectsAt img.now pointer.flags pointer.page × (n < object_pages) }
    ensures { (result ≡ pages_at (vol img.now) n) × (result ≤ 32 * 8589934592) }
{
    let q = root_page(img, pointer, 0, n);
    if q == 0 {
        return 0;
    }
    page_pages(img, q, n)
}

// The pages of user u's files, where the object pointer has these flags and this page, and the object file ends at `ends`.
pub fn user_pages(img: &[u16], pointer: Pointer, ends: usize, u: usize) -> u64
    requires { ObjectsAt img.now pointer.flags pointer.page × Ends img.now ends × (u < 256) }
    ensures { (result ≡ pages_of (vol img.now) u) × (result ≤ 256 * 8589934592) }
{
    if ends <= 8 * u {
        return 0;
    }
    let mut sum: u64 = 0;
    for i in 0..8 {
        sum += position_pages(img, pointer, 8 * u + i);
    }
    sum
}
