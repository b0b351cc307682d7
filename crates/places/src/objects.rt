// The places of rule 6: the used objects, user by user. A user whose objects pass the judge's own tests is passed over.
ghost use Rattle.std.specs.Prelude.{◌≡◌, ◌+◌, ◌*◌, ◌%◌, ◌≤◌, ◌<◌};
ghost use Rattle.book.specs.Decides.{Decides};
ghost use Rattle.book.specs.Entries.{user, entry, file_entry};
ghost use Rattle.book.specs.Image.{pages, Whole};
ghost use Rattle.book.specs.Places.{object_spots, spots6};
ghost use Rattle.book.specs.Rules.{Rule2, Rule3, Rule5};
ghost use Rattle.book.specs.Spots.{each};
ghost use Rattle.book.specs.Trees.{root_by};
ghost use Rattle.book.specs.Words.{vol};
ghost use Rattle.heads.specs.Fine.{FileFine};
ghost use Rattle.heads.specs.Span.{Span};
ghost use Rattle.heads.specs.Twins.{FilesApart};
ghost use Rattle.places.specs.Found.{Finds};
ghost use Rattle.places.specs.Rows.{Objects, UsedObject, object_row};

use crate::entry::place_of;
use crate::named::name_ok;
use book::Place;
use heads::objects::page_ok;
use heads::stamps::room;
use heads::stored::entry_legal;
use heads::twins::apart;
use page::OBJECTS;
use page::entry::{NAME, NUMBER, OWNER, TYPE};
use page::read::{Pointer, pointer_at};
use tree::entry::{entry_used, entry_word};
use tree::root::{root_page, user_page};

// The first of the places of file f of user u, which is used and lies on page q.
fn used_object(img: &[u16], pointer: Pointer, q: usize, u: usize, f: usize) -> Option<Place>
    requires { UsedObject img.now pointer.flags pointer.page q u f }
    ensures { Finds (object_spots (vol img.now) u f (file_entry u f)) result }
{
    let e = 256 * u + f;
    let p = user_page(img, u);
    if !entry_used(img, p, u) {
        return Some(place_of(q, e, 0));
    }
    if !name_ok(img, pointer, 4, 256 * u, q, e) {
        return Some(place_of(q, e, NAME));
    }
    if !entry_legal(img, q, e, TYPE, 0, 4) {
        return Some(place_of(q, e, TYPE));
    }
    if entry_word(img, q, e, OWNER) as usize != u {
        return Some(place_of(q, e, OWNER));
    }
    if entry_word(img, q, e, NUMBER) as usize != e {
        return Some(place_of(q, e, NUMBER));
    }
    None
}

// The same of any file: an unused one has no places.
fn any_object(img: &[u16], pointer: Pointer, u: usize, f: usize) -> Option<Place>
    requires { Objects img.now pointer.flags pointer.page × (u < 256) × (f < 256) }
    ensures { Finds (object_row (vol img.now) u f) result }
{
    let e = 256 * u + f;
    let q = root_page(img, pointer, 0, e / 32);
    if !entry_used(img, q, e) {
        return None;
    }
    used_object(img, pointer, q, u, f)
}

// The first of the places of the 256 files of user u.
fn all_objects(img: &[u16], pointer: Pointer, u: usize) -> Option<Place>
    requires { Objects img.now pointer.flags pointer.page × (u < 256) }
    ensures { Finds (each 256 (object_row (vol img.now) u)) result }
{
    for f in 0..256 {
        if let Some(place) = any_object(img, pointer, u, f) {
            return Some(place);
        }
    }
    None
}

// Whether each of the 256 objects from `base` on is unused or right, but for names that are the same.
fn each_right(img: &[u16], pointer: Pointer, base: usize) -> bool
    requires { Objects img.now pointer.flags pointer.page × (base % 32 ≡ 0) × (base + 256 ≤ 65536) }
    ensures { Decides result (Span (FileFine (user (vol img.now)) (entry (vol img.now) (root_by pointer.flags pointer.page 0))) base (base + 256)) }
{
    for i in 0..8 {
        if !page_ok(img, pointer, base + 32 * i) {
            return false;
        }
    }
    true
}

// Whether the objects of user u break nothing.
fn all_right(img: &[u16], pointer: Pointer, u: usize) -> bool
    requires { Objects img.now pointer.flags pointer.page × (u < 256) }
    ensures { Decides result (Span (FileFine (user (vol img.now)) (entry (vol img.now) (root_by pointer.flags pointer.page 0))) (256 * u) (256 * u + 256) × FilesApart (entry (vol img.now) (root_by pointer.flags pointer.page 0)) u) }
{
    let base = 256 * u;
    if !each_right(img, pointer, base) {
        return false;
    }
    let mut table = room();
    apart(img, &mut table, pointer, 4, base)
}

// The first of the places of the files of user u, where the judge's tests are asked first.
fn user_objects(img: &[u16], pointer: Pointer, u: usize) -> Option<Place>
    requires { Objects img.now pointer.flags pointer.page × (u < 256) }
    ensures { Finds (each 256 (object_row (vol img.now) u)) result }
{
    if !all_right(img, pointer, u) {
        return all_objects(img, pointer, u);
    }
    None
}

// The first place that breaks rule 6.
pub fn first6(img: &[u16]) -> Option<Place>
    requires { Whole img.now × Rule2 (pages img.now) (vol img.now) × Rule3 (pages img.now) (vol img.now) × Rule5 (pages img.now) (vol img.now) }
    ensures { Finds (spots6 (vol img.now)) result }
{
    let pointer = pointer_at(img, 0, OBJECTS);
    for u in 0..256 {
        if let Some(place) = user_objects(img, pointer, u) {
            return Some(place);
        }
    }
    None
}
