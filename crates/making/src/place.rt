// The places of new entries: system pages are taken at the lowest free page, linked, and paid from unreserved.
ghost use Rattle.std.specs.Prelude.{◌≡◌, ◌-◌, ◌≤◌, ◌<◌};
ghost use Rattle.book.specs.Words.{vol};
ghost use Rattle.book.specs.Pointers.{page, user_pointer};
ghost use Rattle.book.specs.Bits.{lowest_free};
ghost use Rattle.book.specs.Entries.{user_page, object_page, unreserved as unreservedOf};
ghost use Rattle.book.specs.Image.{pages, Ready};
ghost use Rattle.book.specs.Create.{extend as extendOf, started, raised, raises as raisesFor, with_user_page, with_subindex, user_need, user_place, object_index, file_need, with_index, with_object_page, file_place};
ghost use Rattle.laws.specs.Create.Vacant.{Reached, Vacant};

use page::entry::EntryPlace;
use page::read::page_at;
use page::write::{pointer_to, put_two};
use page::{INDEXED, OBJECTS, SUBINDEXED, UNRESERVED, USERS};
use seek::needs::{object_index, raises};
use seek::users::unreserved;
use tree::root::{object_page, user_page};

// A new page in slot k of a block. This and the next two stay three: `extend`, `started` and `raised` of the book each have their own order of writes.
fn extend(img: &mut [u16], block: usize, k: usize)
    requires { Ready img.old × Vacant (pages img.old) (vol img.old) block k × (1 ≤ unreservedOf (vol img.old)) }
    ensures { vol img.new ≡ extendOf (lowest_free (pages img.old)) (pages img.old) (vol img.old) block k }
{
    let b = bits::bit_page(img);
    let s = unreserved(img);
    let d = bits::take(img, b);
    put_two(img, block, 2 * k, d as u32);
    put_two(img, 0, UNRESERVED, s - 1);
}

// The first user ever: user index, user page, object index.
fn start(img: &mut [u16])
    requires { Ready img.old × (3 ≤ unreservedOf (vol img.old)) }
    ensures { vol img.new ≡ started (lowest_free (pages img.old)) (pages img.old) (vol img.old) }
{
    let b = bits::bit_page(img);
    let s = unreserved(img);
    let i = bits::take(img, b);
    let q = bits::take(img, b);
    let o = bits::take(img, b);
    put_two(img, 0, USERS, pointer_to(INDEXED, i));
    put_two(img, 0, OBJECTS, pointer_to(INDEXED, o));
    put_two(img, i, 0, q as u32);
    put_two(img, 0, UNRESERVED, s - 3);
}

// The object file gets a subindex block, whose first slot has the index block so far.
fn raise(img: &mut [u16])
    requires { Ready img.old × (1 ≤ unreservedOf (vol img.old)) }
    ensures { vol img.new ≡ raised (lowest_free (pages img.old)) (pages img.old) (vol img.old) }
{
    let b = bits::bit_page(img);
    let s = unreserved(img);
    let top = page_at(img, 0, OBJECTS);
    let d = bits::take(img, b);
    put_two(img, d, 0, top);
    put_two(img, 0, OBJECTS, pointer_to(SUBINDEXED, d));
    put_two(img, 0, UNRESERVED, s - 1);
}

// A user page for user u, if absent.
fn with_user_page(img: &mut [u16], u: usize)
    requires { Ready img.old × (u < 256) × (0 < page (vol img.old 0) user_pointer) × (1 - user_page (vol img.old) u ≤ unreservedOf (vol img.old)) }
    ensures { vol img.new ≡ with_user_page (lowest_free (pages img.old)) (pages img.old) (vol img.old) u }
{
    if user_page(img, u) == 0 {
        let top = page_at(img, 0, USERS) as usize;
        extend(img, top, u / EntryPlace::PER_PAGE);
    }
}

// A subindex block, if user u asks for one.
fn with_subindex(img: &mut [u16], u: usize)
    requires { Ready img.old × (raisesFor (vol img.old) u ≤ unreservedOf (vol img.old)) }
    ensures { vol img.new ≡ with_subindex (lowest_free (pages img.old)) (pages img.old) (vol img.old) u }
{
    if raises(img, u) != 0 {
        raise(img);
    }
}

// The place of user u's entry.
pub fn user_place(img: &mut [u16], u: usize)
    requires { Ready img.old × (u < 256) × (user_need (vol img.old) u ≤ unreservedOf (vol img.old)) }
    ensures { vol img.new ≡ user_place (lowest_free (pages img.old)) (pages img.old) (vol img.old) u }
{
    if page_at(img, 0, USERS) == 0 {
        start(img);
    } else {
        with_user_page(img, u);
        with_subindex(img, u);
    }
}

// An object index block for entry e, if absent.
fn with_index(img: &mut [u16], e: usize)
    requires { Ready img.old × (e < 65536) × Reached (pages img.old) (vol img.old) e × (file_need (vol img.old) e ≤ unreservedOf (vol img.old)) }
    ensures { vol img.new ≡ with_index (lowest_free (pages img.old)) (pages img.old) (vol img.old) e }
{
    if object_index(img, e) == 0 {
        let top = page_at(img, 0, OBJECTS) as usize;
        extend(img, top, e / EntryPlace::PER_PAGE / 512);
    }
}

// An object page for entry e, if absent, in an index block that is there.
fn with_object_page(img: &mut [u16], e: usize)
    requires { Ready img.old × (e < 65536) × Reached (pages img.old) (vol img.old) e × (0 < object_index (vol img.old) e) × (1 - object_page (vol img.old) e ≤ unreservedOf (vol img.old)) }
    ensures { vol img.new ≡ with_object_page (lowest_free (pages img.old)) (pages img.old) (vol img.old) e }
{
    if object_page(img, e) == 0 {
        let block = object_index(img, e);
        extend(img, block, e / EntryPlace::PER_PAGE % 512);
    }
}

// The place of object entry e.
pub fn file_place(img: &mut [u16], e: usize)
    requires { Ready img.old × (e < 65536) × Reached (pages img.old) (vol img.old) e × (file_need (vol img.old) e ≤ unreservedOf (vol img.old)) }
    ensures { vol img.new ≡ file_place (lowest_free (pages img.old)) (pages img.old) (vol img.old) e }
{
    with_index(img, e);
    with_object_page(img, e);
}
