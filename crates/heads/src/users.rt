// Rule 4: the used users.
ghost use Rattle.std.specs.Prelude.{◌≡◌, true, length, ◌+◌, ◌%◌, ◌≤◌, ◌<◌};
ghost use Rattle.book.specs.Words.{vol, two};
ghost use Rattle.book.specs.Entries.{user_file, user, used};
ghost use Rattle.book.specs.Image.{pages, Whole};
ghost use Rattle.book.specs.Names.{stored};
ghost use Rattle.book.specs.Rules.{Asked, Rule2, Rule3, Rule4Over};
ghost use Rattle.book.specs.Decides.{Decides};
ghost use Rattle.tree.specs.Reach.{Reach, entry_in};
ghost use Rattle.heads.specs.Span.{Span};
ghost use Rattle.heads.specs.Fine.{UserFine};

use crate::stored::entry_legal;
use crate::twins::apart;
use page::USERS;
use page::entry::{GIVEN, INDEX, NAME, USED};
use page::read::pointer_at;
use tree::entry::{entry_two, entry_used, entry_word};
use tree::root::user_page;

// Whether user u on page q uses no more than he was given, if that is asked.
pub fn within(img: &[u16], ten: bool, q: usize, u: usize) -> bool
    requires { q < pages img.now }
    ensures { Decides result (Asked ten (two (entry_in (vol img.now) q u) 16 ≤ two (entry_in (vol img.now) q u) 14)) }
{
    !ten || entry_two(img, q, u, USED) <= entry_two(img, q, u, GIVEN)
}

// Whether user u on page q is unused, or has its own index, a legal name, and, if all ten rules are asked, uses no more than it was given.
fn user_ok(img: &[u16], ten: bool, q: usize, u: usize) -> bool
    requires { (0 < q) × (q < pages img.now) }
    ensures { Decides result (UserFine ten (entry_in (vol img.now) q) u) }
{
    if !entry_used(img, q, u) {
        return true;
    }
    usize::from(entry_word(img, q, u, INDEX)) == u
        && entry_legal(img, q, u, NAME, 1, 16)
        && within(img, ten, q, u)
}

// Whether the 32 users from `first` on, a page of them, are unused or right. An absent page has no used users.
fn page_ok(img: &[u16], ten: bool, first: usize) -> bool
    requires { Reach img.now (user_file (vol img.now)) × (first % 32 ≡ 0) × (first < 256) }
    ensures { Decides result (Span (UserFine ten (user (vol img.now))) first (first + 32)) }
{
    let q = user_page(img, first);
    if q == 0 {
        return true;
    }
    (first..first + 32).all(|u| user_ok(img, ten, q, u))
}

// Whether all users are unused or right.
fn users_ok(img: &[u16], ten: bool) -> bool
    requires { Reach img.now (user_file (vol img.now)) }
    ensures { Decides result (Span (UserFine ten (user (vol img.now))) 0 256) }
{
    (0..8).all(|k| page_ok(img, ten, 32 * k))
}

// Rule 4: used users: own index right, name legal, no two names equal, and, if all ten rules are asked, used no more than given. The table may
// be lent again for rule 6.
pub fn rule4(img: &[u16], ten: bool, table: &mut [u16; 4096]) -> bool
    requires { Whole img.now × Rule2 (pages img.now) (vol img.now) × Rule3 (pages img.now) (vol img.now) × (length table.old ≡ 4096) }
    ensures { Decides result (Rule4Over stored ten (user (vol img.now))) × (result ≡ true → length table.new ≡ 4096) }
{
    let pointer = pointer_at(img, 0, USERS);
    users_ok(img, ten) && apart(img, table, pointer, 0, 0)
}
