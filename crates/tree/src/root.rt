// The page at a position: of any root, of the user file, of the object file.
ghost use Rattle.std.specs.Prelude.{◌≡◌, ◌<◌};
ghost use Rattle.book.specs.Words.{vol};
ghost use Rattle.book.specs.Trees.{root_at, root_by, page_at};
ghost use Rattle.book.specs.Entries.{user_file, object_file, user_page, object_page, entry_page};
ghost use Rattle.book.specs.Image.{pages};
ghost use Rattle.tree.specs.Reach.{Reach};
ghost use Rattle.tree.specs.Ends.{Ends};

use crate::ends::{slots_end, tree_end};
use page::entry::EntryPlace;
use page::read::{Pointer, pointer_at, slot_at};
use page::{INDEXED, OBJECTS, SUBINDEXED, USERS};

// The page at position n of the root with this pointer and so many pages; 0 where there is none.
pub fn root_page(img: &[u16], pointer: Pointer, count: usize, n: usize) -> usize
    requires { Reach img.now (root_by pointer.flags pointer.page count) }
    ensures { (result ≡ page_at (vol img.now) (root_by pointer.flags pointer.page count) n) × (result < pages img.now) }
{
    match pointer.flags {
        0 if n < count => pointer.page + n,
        INDEXED if n < 512 => slot_at(img, pointer.page, n),
        SUBINDEXED if n < 262144 => slot_at(img, slot_at(img, pointer.page, n / 512), n % 512),
        _ => 0,
    }
}

// The page of entry n of the user file or the object file, whose pointer is word k of page 0; 0 where it is absent.
fn page_of_entry(img: &[u16], k: usize, n: usize) -> usize
    requires { (k < 1023) × Reach img.now (root_at (vol img.now 0) k 0) }
    ensures { (result ≡ page_at (vol img.now) (root_at (vol img.now 0) k 0) (entry_page n)) × (result < pages img.now) }
{
    root_page(img, pointer_at(img, 0, k), 0, EntryPlace::of(n).page)
}

// The page of user u's entry, 0 where it is absent.
pub fn user_page(img: &[u16], u: usize) -> usize
    requires { Reach img.now (user_file (vol img.now)) }
    ensures { (result ≡ user_page (vol img.now) u) × (result < pages img.now) }
{
    page_of_entry(img, USERS, u)
}

// The page of object entry e, 0 where it is absent.
pub fn object_page(img: &[u16], e: usize) -> usize
    requires { Reach img.now (object_file (vol img.now)) }
    ensures { (result ≡ object_page (vol img.now) e) × (result < pages img.now) }
{
    page_of_entry(img, OBJECTS, e)
}

// One more than the highest position of the object file, below 2,048, that has a page.
pub fn object_ends(img: &[u16]) -> usize
    requires { Reach img.now (object_file (vol img.now)) }
    ensures { Ends img.now result }
{
    let objects = pointer_at(img, 0, OBJECTS);
    match objects.flags {
        INDEXED => slots_end(img, objects.page),
        SUBINDEXED => tree_end(img, objects.page),
        _ => 0,
    }
}
