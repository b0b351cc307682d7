// The places of rules 1 to 3: the master page's pointers, and the user index.
ghost use Rattle.std.specs.Prelude.{◌≡◌, ◌<◌};
ghost use Rattle.book.specs.Words.{vol};
ghost use Rattle.book.specs.Decides.{Decides};
ghost use Rattle.book.specs.Image.{pages, Whole};
ghost use Rattle.book.specs.Rules.{Rule2};
ghost use Rattle.book.specs.Places.{in_master, spots1, spots2, spots3};
ghost use Rattle.places.specs.Found.{Finds, ObjectsRight};

use crate::block::block;
use book::Place;
use heads::master::{inside_at, rule1, rule2, zero_at};
use page::names::legal_at;
use page::read::page_at;
use page::{BITS, INDEXED, OBJECTS, SUBINDEXED, USERS, VOLUME};

// Word k of the master page.
pub(crate) fn master_place(k: usize) -> Place
    requires { k < 1024 }
    ensures { result ≡ in_master k }
{
    Place {
        page: 0,
        word: k as u32,
    }
}

// The first place that breaks rule 1: where the name is legal, it is the bit pointer.
pub fn first1(img: &[u16], total: usize) -> Option<Place>
    requires { Whole img.now × (total ≡ pages img.now) }
    ensures { Finds (spots1 (pages img.now) (vol img.now)) result }
{
    if !legal_at(img, 0, VOLUME, 1, 16) {
        return Some(master_place(VOLUME));
    }
    if !rule1(img, total) {
        return Some(master_place(BITS));
    }
    None
}

// Whether the object pointer is right beside the user pointer: both are zero, or it leads to an index or subindex block and the user pointer is not zero.
fn objects_ok(img: &[u16], total: usize) -> bool
    requires { Whole img.now × (total ≡ pages img.now) }
    ensures { Decides result (ObjectsRight (pages img.now) (vol img.now)) }
{
    if zero_at(img, USERS) {
        return zero_at(img, OBJECTS);
    }
    inside_at(img, total, OBJECTS, INDEXED) || inside_at(img, total, OBJECTS, SUBINDEXED)
}

// The first place that breaks rule 2: where the object pointer is right, it is the user pointer.
pub fn first2(img: &[u16], total: usize) -> Option<Place>
    requires { Whole img.now × (total ≡ pages img.now) }
    ensures { Finds (spots2 (pages img.now) (vol img.now)) result }
{
    if !objects_ok(img, total) {
        return Some(master_place(OBJECTS));
    }
    if !rule2(img, total) {
        return Some(master_place(USERS));
    }
    None
}

// The first place that breaks rule 3.
pub fn first3(img: &[u16], total: usize) -> Option<Place>
    requires { Whole img.now × (total ≡ pages img.now) × Rule2 (pages img.now) (vol img.now) }
    ensures { Finds (spots3 (pages img.now) (vol img.now)) result }
{
    let top = page_at(img, 0, USERS) as usize;
    block(img, total, 0, 8, top)
}
