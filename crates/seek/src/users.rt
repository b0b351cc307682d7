// A user's entry and his numbers; the pages that nobody was given.
ghost use Rattle.std.specs.Prelude.{◌≡◌, ◌<◌};
ghost use Rattle.book.specs.Words.{vol, two};
ghost use Rattle.book.specs.Entries.{user, given as givenTo, used_pages, spare as spare_of, unreserved as unreservedOf};
ghost use Rattle.book.specs.Image.{Whole, Ready};
ghost use Rattle.book.specs.Decides.{Decides};
ghost use Rattle.book.specs.Calls.{HasUser};

use page::UNRESERVED;
use page::entry::{GIVEN, USED};
use page::read::two_at;
use tree::entry::{entry_two, entry_used};
use tree::root::user_page;

// User u is there.
pub fn has_user(img: &[u16], u: usize) -> bool
    requires { Ready img.now }
    ensures { Decides result (HasUser (vol img.now) u) }
{
    let q = user_page(img, u);
    entry_used(img, q, u)
}

// The two-word number at word k of user u's entry, 0 on an absent page.
fn user_two(img: &[u16], u: usize, k: usize) -> u32
    requires { Ready img.now × (k < 31) }
    ensures { (result ≡ two (user (vol img.now) u) k) × (result < 4294967296) }
{
    let q = user_page(img, u);
    entry_two(img, q, u, k)
}

// The pages that user u was given.
pub fn given(img: &[u16], u: usize) -> u32
    requires { Ready img.now }
    ensures { (result ≡ givenTo (user (vol img.now)) u) × (result < 4294967296) }
{
    user_two(img, u, GIVEN)
}

// The pages that user u's files use.
pub fn used_pages(img: &[u16], u: usize) -> u32
    requires { Ready img.now }
    ensures { (result ≡ used_pages (user (vol img.now)) u) × (result < 4294967296) }
{
    user_two(img, u, USED)
}

// What user u has left: given less used.
pub fn spare(img: &[u16], u: usize) -> u32
    requires { Ready img.now × (u < 256) × HasUser (vol img.now) u }
    ensures { (result ≡ spare_of (vol img.now) u) × (result < 4294967296) }
{
    given(img, u) - used_pages(img, u)
}

// The pages that nobody was given.
pub fn unreserved(img: &[u16]) -> u32
    requires { Whole img.now }
    ensures { (result ≡ unreservedOf (vol img.now)) × (result < 4294967296) }
{
    two_at(img, 0, UNRESERVED)
}
