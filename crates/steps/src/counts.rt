// A user's given pages and the unreserved count: give and take move pages from one to the other.
ghost use Rattle.std.specs.Prelude.{◌≡◌, ◌<◌, ◌≤◌};
ghost use Rattle.book.specs.Words.{vol};
ghost use Rattle.book.specs.Entries.{user, used, spare, unreserved as unreservedOf};
ghost use Rattle.book.specs.Image.{Ready};
ghost use Rattle.book.specs.Steps.{moved, give_step, take_step};

use page::UNRESERVED;
use page::entry::{EntryPlace, GIVEN};
use page::write::put_two;
use seek::users::{given, unreserved};
use tree::root::user_page;

// User u's given pages become g, and unreserved s.
fn move_counts(img: &mut [u16], u: usize, g: u32, s: u32)
    requires { Ready img.old }
    ensures { vol img.new ≡ moved (vol img.old) u g s }
{
    let q = user_page(img, u);
    let k = EntryPlace::of(u).word;
    put_two(img, q, k + GIVEN, g);
    put_two(img, 0, UNRESERVED, s);
}

// n pages move from unreserved to user u's given pages.
pub fn give_step(img: &mut [u16], u: usize, n: u32)
    requires { Ready img.old × (u < 256) × (0 < used (user (vol img.old) u)) × (n ≤ unreservedOf (vol img.old)) }
    ensures { vol img.new ≡ give_step (vol img.old) u n }
{
    let g = given(img, u);
    let s = unreserved(img);
    move_counts(img, u, g + n, s - n);
}

// And back.
pub fn take_step(img: &mut [u16], u: usize, n: u32)
    requires { Ready img.old × (u < 256) × (0 < used (user (vol img.old) u)) × (n ≤ spare (vol img.old) u) }
    ensures { vol img.new ≡ take_step (vol img.old) u n }
{
    let g = given(img, u);
    let s = unreserved(img);
    move_counts(img, u, g - n, s + n);
}
