// Rules 5 and 6: the blocks of the object file, and the used objects.
ghost use Rattle.std.specs.Prelude.{◌≡◌, ◌+◌, ◌*◌, ◌/◌, ◌%◌, ◌≤◌, ◌<◌, length};
ghost use Rattle.book.specs.Words.{vol};
ghost use Rattle.book.specs.Pointers.{slot};
ghost use Rattle.book.specs.Trees.{root_by};
ghost use Rattle.book.specs.Entries.{user_file, user, object, entry, used, object_pages};
ghost use Rattle.book.specs.Image.{pages, Whole};
ghost use Rattle.book.specs.Rules.{Rule2, Rule3, Rule5, Rule6};
ghost use Rattle.book.specs.Decides.{Decides};
ghost use Rattle.tree.specs.Ends.{Ends};
ghost use Rattle.tree.specs.Reach.{Reach, entry_in};
ghost use Rattle.heads.specs.Slots.{Slots, Block};
ghost use Rattle.heads.specs.Span.{Span};
ghost use Rattle.heads.specs.Fine.{FileFine, Unused};
ghost use Rattle.heads.specs.Twins.{FilesApart};

use crate::block::block_ok;
use crate::stored::entry_legal;
use crate::twins::apart;
use page::OBJECTS;
use page::entry::{NAME, NUMBER, OWNER, TYPE};
use page::read::{Pointer, pointer_at, slot_at};
use tree::entry::{entry_used, entry_word};
use tree::root::{root_page, user_page};

// Whether the 32 users from `first` on, a page of them, are unused.
fn page_unused(img: &[u16], first: usize) -> bool
    requires { Reach img.now (user_file (vol img.now)) × (first % 32 ≡ 0) × (first < 256) }
    ensures { Decides result (Span (Unused (user (vol img.now))) first (first + 32)) }
{
    let q = user_page(img, first);
    if q == 0 {
        return true;
    }
    (first..first + 32).all(|u| !entry_used(img, q, u))
}

// Whether no user above 63 is used.
pub fn low_users(img: &[u16]) -> bool
    requires { Reach img.now (user_file (vol img.now)) }
    ensures { Decides result (Span (Unused (user (vol img.now))) 64 256) }
{
    (2..8).all(|k| page_unused(img, 32 * k))
}

// Whether all pointers of the index blocks in slots 0..3 of the subindex block `top` are below total.
fn indexes_ok(img: &[u16], total: usize, top: usize) -> bool
    requires { Block img.now total top × Slots (pages img.now) (vol img.now) top 4 }
    ensures { Decides result (Span (λ i. Slots (pages img.now) (vol img.now) (slot (vol img.now) top i) 512) 0 4) }
{
    (0..4).all(|i| block_ok(img, total, slot_at(img, top, i), 512))
}

// Rule 5: object blocks: allowed slots zero or in 1..P-1, others zero; if indexed, no used user above 63.
pub fn rule5(img: &[u16], total: usize) -> bool
    requires { Whole img.now × (total ≡ pages img.now) × Rule2 (pages img.now) (vol img.now) × Rule3 (pages img.now) (vol img.now) }
    ensures { Decides result (Rule5 (pages img.now) (vol img.now)) }
{
    let pointer = pointer_at(img, 0, OBJECTS);
    match pointer.flags {
        1 => block_ok(img, total, pointer.page, 512) && low_users(img),
        2 => block_ok(img, total, pointer.page, 4) && indexes_ok(img, total, pointer.page),
        _ => true,
    }
}

// Whether object e on page q is unused, or its owner is used, words 16 and 17 are right, and name and type are legal.
fn file_ok(img: &[u16], q: usize, e: usize, owned: bool) -> bool
    requires { (0 < q) × (q < pages img.now) × Decides owned (0 < used (user (vol img.now) (e / 256))) }
    ensures { Decides result (FileFine (user (vol img.now)) (entry_in (vol img.now) q) e) }
{
    if !entry_used(img, q, e) {
        return true;
    }
    owned
        && usize::from(entry_word(img, q, e, OWNER)) == e / 256
        && usize::from(entry_word(img, q, e, NUMBER)) == e
        && entry_legal(img, q, e, NAME, 1, 16)
        && entry_legal(img, q, e, TYPE, 0, 4)
}

// Whether the 32 objects from `first` on, a page of them, are unused or right. An absent page has no used objects.
pub fn page_ok(img: &[u16], pointer: Pointer, first: usize) -> bool
    requires { Reach img.now (user_file (vol img.now)) × Reach img.now (root_by pointer.flags pointer.page 0) × (first % 32 ≡ 0) × (first < 65536) }
    ensures { Decides result (Span (FileFine (user (vol img.now)) (entry (vol img.now) (root_by pointer.flags pointer.page 0))) first (first + 32)) }
{
    let q = root_page(img, pointer, 0, first / 32);
    if q == 0 {
        return true;
    }
    let u = first / 256;
    let owned = entry_used(img, user_page(img, u), u);
    (first..first + 32).all(|e| file_ok(img, q, e, owned))
}

// Whether the objects of so many pages are unused or right.
fn files_ok(img: &[u16], pointer: Pointer, ends: usize) -> bool
    requires { Reach img.now (user_file (vol img.now)) × Reach img.now (root_by pointer.flags pointer.page 0) × (ends ≤ object_pages) }
    ensures { Decides result (Span (FileFine (user (vol img.now)) (entry (vol img.now) (root_by pointer.flags pointer.page 0))) 0 (32 * ends)) }
{
    (0..ends).all(|n| page_ok(img, pointer, 32 * n))
}

// Whether no two files of a user have the same name and type, words 1 to 10, for so many users.
fn all_apart(img: &[u16], table: &mut [u16; 4096], pointer: Pointer, users: usize) -> bool
    requires { Reach img.now (root_by pointer.flags pointer.page 0) × (users ≤ 256) × (length table.old ≡ 4096) }
    ensures { Decides result (Span (FilesApart (entry (vol img.now) (root_by pointer.flags pointer.page 0))) 0 users) }
{
    for u in 0..users {
        if !apart(img, table, pointer, 4, 256 * u) {
            return false;
        }
    }
    true
}

// How many users' objects are on so many pages, 8 pages a user.
fn owners(ends: usize) -> usize
    requires { ends ≤ object_pages }
    ensures { (result ≤ 256) × (ends ≤ 8 * result) }
{
    ends.div_ceil(8)
}

// Rule 6: used objects: owner is used, words 16 and 17 right, name and type legal, no two of a user equal. The object file ends at `ends`.
pub fn rule6(img: &[u16], table: &mut [u16; 4096], ends: usize) -> bool
    requires { Whole img.now × Rule2 (pages img.now) (vol img.now) × Rule3 (pages img.now) (vol img.now) × Rule5 (pages img.now) (vol img.now) × Ends img.now ends × (length table.old ≡ 4096) }
    ensures { Decides result (Rule6 (user (vol img.now)) (object (vol img.now))) }
{
    let pointer = pointer_at(img, 0, OBJECTS);
    files_ok(img, pointer, ends) && all_apart(img, table, pointer, owners(ends))
}
