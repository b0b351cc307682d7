// Rule 10: each used count is the pages of his files; unreserved, given and system pages make up P.
ghost use Rattle.std.specs.Prelude.{◌≡◌, ◌+◌, ◌%◌, ◌<◌};
ghost use Rattle.sums.specs.Sum.{sum as sum_of};
ghost use Rattle.book.specs.Decides.{Decides};
ghost use Rattle.book.specs.Entries.{user, object, user_file, grant, unreserved};
ghost use Rattle.book.specs.Holders.{all, some, system_pages};
ghost use Rattle.book.specs.Image.{pages, Whole};
ghost use Rattle.book.specs.Rules.{Rule2, Rule3, Rule5, Rule6, Rule7, Rule10};
ghost use Rattle.book.specs.Words.{vol};
ghost use Rattle.tree.specs.Ends.{Ends};
ghost use Rattle.tree.specs.Reach.{Reach, entry_in};
ghost use Rattle.shape.specs.Counts.{CountRight, UsersRight};
ghost use Rattle.shape.specs.Objects.{ObjectsAt};

use crate::counts::user_pages;
use crate::tally::users_sum;
use page::entry::{GIVEN, USED};
use page::read::{Pointer, pointer_at, two_at};
use page::{OBJECTS, UNRESERVED};
use tree::entry::{entry_two, entry_used};
use tree::root::user_page;

// Whether user u on page q is unused, or his used pages are those of his files.
pub fn user_ok(img: &[u16], pointer: Pointer, ends: usize, q: usize, u: usize) -> bool
    requires { ObjectsAt img.now pointer.flags pointer.page × Ends img.now ends × (q < pages img.now) × (u < 256) }
    ensures { Decides result (CountRight (vol img.now) u (entry_in (vol img.now) q u)) }
{
    if !entry_used(img, q, u) {
        return true;
    }
    u64::from(entry_two(img, q, u, USED)) == user_pages(img, pointer, ends, u)
}

// The same of the 32 users from `first` on, a page of them. An absent page has no used users.
pub fn page_ok(img: &[u16], pointer: Pointer, ends: usize, first: usize) -> bool
    requires { ObjectsAt img.now pointer.flags pointer.page × Ends img.now ends × Reach img.now (user_file (vol img.now)) × (first % 32 ≡ 0) × (first < 256) }
    ensures { Decides result (UsersRight (vol img.now) first (first + 32)) }
{
    let q = user_page(img, first);
    if q == 0 {
        return true;
    }
    (first..first + 32).all(|u| user_ok(img, pointer, ends, q, u))
}

// The same of all users.
pub fn users_ok(img: &[u16], pointer: Pointer, ends: usize) -> bool
    requires { ObjectsAt img.now pointer.flags pointer.page × Ends img.now ends × Reach img.now (user_file (vol img.now)) }
    ensures { Decides result (UsersRight (vol img.now) 0 256) }
{
    (0..8).all(|k| page_ok(img, pointer, ends, 32 * k))
}

// Whether unreserved, given and system pages make up P. The system pages are those visited less the users' own, which their used counts tell.
pub fn sum_ok(img: &[u16], total: usize, visits: u32) -> bool
    requires { Whole img.now × (total ≡ pages img.now) × Reach img.now (user_file (vol img.now)) × (visits ≡ 1 + all (pages img.now) (vol img.now) some)
        × Rule6 (user (vol img.now)) (object (vol img.now)) × Rule7 (pages img.now) (vol img.now) × UsersRight (vol img.now) 0 256 }
    ensures { Decides result (unreserved (vol img.now) + sum_of 256 (grant (user (vol img.now))) + system_pages (pages img.now) (vol img.now) ≡ pages img.now) }
{
    let unreserved = u64::from(two_at(img, 0, UNRESERVED));
    let given = users_sum(img, GIVEN);
    let taken = users_sum(img, USED);
    unreserved + given + u64::from(visits) == total as u64 + taken
}

// Whether rule 10 holds, where a walk over rule 8 has visited so many pages, and the object file ends at `ends`.
pub fn rule10(img: &[u16], total: usize, visits: u32, ends: usize) -> bool
    requires { Whole img.now × (total ≡ pages img.now) × Rule2 (pages img.now) (vol img.now) × Rule3 (pages img.now) (vol img.now) × Rule5 (pages img.now) (vol img.now)
        × Rule6 (user (vol img.now)) (object (vol img.now)) × Rule7 (pages img.now) (vol img.now) × (visits ≡ 1 + all (pages img.now) (vol img.now) some) × Ends img.now ends }
    ensures { Decides result (Rule10 (pages img.now) (vol img.now)) }
{
    let pointer = pointer_at(img, 0, OBJECTS);
    users_ok(img, pointer, ends) && sum_ok(img, total, visits)
}
