// The places of rule 4: the used users.
ghost use Rattle.std.specs.Prelude.{◌≡◌, ◌<◌};
ghost use Rattle.book.specs.Words.{vol};
ghost use Rattle.book.specs.Decides.{Decides};
ghost use Rattle.book.specs.Entries.{user, used};
ghost use Rattle.book.specs.Image.{pages, Whole};
ghost use Rattle.book.specs.Rules.{Rule2, Rule3};
ghost use Rattle.book.specs.Spots.{when};
ghost use Rattle.tree.specs.Reach.{entry_in};
ghost use Rattle.places.specs.Found.{Finds, Users, UserAt};
ghost use Rattle.book.specs.Places.{user_spots, spots4};

use crate::entry::place_of;
use crate::named::name_ok;
use book::Place;
use heads::users::within;
use page::USERS;
use page::entry::{INDEX, NAME, USED};
use page::read::{Pointer, pointer_at};
use tree::entry::{entry_used, entry_word};
use tree::root::root_page;

// Whether user u on page q has his own index.
fn own(img: &[u16], q: usize, u: usize) -> bool
    requires { q < pages img.now }
    ensures { Decides result (entry_in (vol img.now) q u 18 ≡ u) }
{
    entry_word(img, q, u, INDEX) as usize == u
}

// The first of the places of user u that are asked, who is used and lies on page q of the file with these flags and top page.
fn used_user(img: &[u16], ten: bool, pointer: Pointer, q: usize, u: usize) -> Option<Place>
    requires { UserAt img.now pointer.flags pointer.page q u }
    ensures { Finds (user_spots ten (vol img.now) u) result }
{
    if !name_ok(img, pointer, 0, 0, q, u) {
        return Some(place_of(q, u, NAME));
    }
    if !within(img, ten, q, u) {
        return Some(place_of(q, u, USED));
    }
    if !own(img, q, u) {
        return Some(place_of(q, u, INDEX));
    }
    None
}

// The same of any user: an unused one has no places.
fn any_user(img: &[u16], ten: bool, pointer: Pointer, u: usize) -> Option<Place>
    requires { Users img.now pointer.flags pointer.page × (u < 256) }
    ensures { Finds (when (used (user (vol img.now) u)) (user_spots ten (vol img.now) u)) result }
{
    let q = root_page(img, pointer, 0, u / 32);
    if !entry_used(img, q, u) {
        return None;
    }
    used_user(img, ten, pointer, q, u)
}

// The first place that breaks rule 4, by what is asked.
pub fn first4(img: &[u16], ten: bool) -> Option<Place>
    requires { Whole img.now × Rule2 (pages img.now) (vol img.now) × Rule3 (pages img.now) (vol img.now) }
    ensures { Finds (spots4 ten (vol img.now)) result }
{
    let pointer = pointer_at(img, 0, USERS);
    for u in 0..256 {
        if let Some(place) = any_user(img, ten, pointer, u) {
            return Some(place);
        }
    }
    None
}
