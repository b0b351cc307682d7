// The places of rule 10: the used counts of used users, the sum.
ghost use Rattle.std.specs.Prelude.{◌≡◌, ◌+◌, ◌<◌};
ghost use Rattle.book.specs.Words.{vol};
ghost use Rattle.book.specs.Entries.{user, object};
ghost use Rattle.book.specs.Holders.{all, some};
ghost use Rattle.book.specs.Image.{pages, Whole};
ghost use Rattle.book.specs.Rules.{Rule2, Rule3, Rule5, Rule6, Rule7};
ghost use Rattle.book.specs.Spots.{each};
ghost use Rattle.book.specs.Places.{spots10};
ghost use Rattle.tree.specs.Ends.{Ends};
ghost use Rattle.places.specs.Found.{Finds, Counting, count_row};

use crate::entry::place_of;
use crate::master::master_place;
use book::Place;
use page::entry::USED;
use page::read::{Pointer, pointer_at};
use page::{OBJECTS, UNRESERVED};
use shape::rule10::{sum_ok, user_ok};
use tree::root::user_page;

// The place of user u's used count, if he is used and it is not the pages of his files.
fn used_count(img: &[u16], pointer: Pointer, ends: usize, u: usize) -> Option<Place>
    requires { Counting img.now pointer.flags pointer.page ends × (u < 256) }
    ensures { Finds (count_row (vol img.now) u) result }
{
    let q = user_page(img, u);
    if !user_ok(img, pointer, ends, q, u) {
        return Some(place_of(q, u, USED));
    }
    None
}

// The first such place.
fn used_counts(img: &[u16], pointer: Pointer, ends: usize) -> Option<Place>
    requires { Counting img.now pointer.flags pointer.page ends }
    ensures { Finds (each 256 (count_row (vol img.now))) result }
{
    for u in 0..256 {
        if let Some(place) = used_count(img, pointer, ends, u) {
            return Some(place);
        }
    }
    None
}

// The first place that breaks rule 10, where a walk over rule 8 has visited so many pages, and the object file ends at `ends`.
pub fn first10(img: &[u16], total: usize, visits: u32, ends: usize) -> Option<Place>
    requires { Whole img.now × (total ≡ pages img.now) × Rule2 (pages img.now) (vol img.now) × Rule3 (pages img.now) (vol img.now) × Rule5 (pages img.now) (vol img.now)
        × Rule6 (user (vol img.now)) (object (vol img.now)) × Rule7 (pages img.now) (vol img.now) × (visits ≡ 1 + all (pages img.now) (vol img.now) some) × Ends img.now ends }
    ensures { Finds (spots10 (pages img.now) (vol img.now)) result }
{
    let pointer = pointer_at(img, 0, OBJECTS);
    if let Some(place) = used_counts(img, pointer, ends) {
        return Some(place);
    }
    if !sum_ok(img, total, visits) {
        return Some(master_place(UNRESERVED));
    }
    None
}
