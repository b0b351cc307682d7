// Deleting a user.
ghost use Rattle.std.specs.Prelude.{◌≡◌, ◌<◌};
ghost use Rattle.book.specs.Words.{vol};
ghost use Rattle.book.specs.Entries.{user, used, given as givenTo, unreserved as unreservedOf};
ghost use Rattle.book.specs.Image.{Ready};
ghost use Rattle.book.specs.Delete.{delete_user};

use page::UNRESERVED;
use page::entry::{EntryPlace, clear_entry};
use page::write::put_two;
use seek::users::{given, unreserved};
use tree::root::user_page;

// User u leaves: his entry becomes zeros, and the g pages that he was given go back to the s unreserved ones.
fn leave(img: &mut [u16], u: usize, g: u32, s: u32)
    requires { Ready img.old × (u < 256) × (0 < used (user (vol img.old) u)) × (g ≡ givenTo (user (vol img.old)) u) × (s ≡ unreservedOf (vol img.old)) }
    ensures { vol img.new ≡ delete_user (vol img.old) u }
{
    let q = user_page(img, u);
    let k = EntryPlace::of(u).word;
    clear_entry(img, q, k);
    put_two(img, 0, UNRESERVED, s + g);
}

// All words of user u's entry become 0, and his given pages go back to unreserved.
pub fn delete_user_step(img: &mut [u16], u: usize)
    requires { Ready img.old × (u < 256) × (0 < used (user (vol img.old) u)) }
    ensures { vol img.new ≡ delete_user (vol img.old) u }
{
    let g = given(img, u);
    let s = unreserved(img);
    leave(img, u, g, s);
}
