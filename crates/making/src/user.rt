// Creating a user.
ghost use Rattle.std.specs.Prelude.{◌≡◌, ◌≤◌, ◌<◌};
ghost use Rattle.book.specs.Words.{vol};
ghost use Rattle.book.specs.Bits.{lowest_free};
ghost use Rattle.book.specs.Entries.{new_user, unreserved};
ghost use Rattle.book.specs.Image.{pages, Ready};
ghost use Rattle.book.specs.Create.{user_need, create_user};

use crate::entry::user_entry;
use crate::place::user_place;
use tree::root::user_page;

// The place of the new user's entry, then the entry.
pub fn create_user_step(img: &mut [u16], u: usize, name: &[u8])
    requires { Ready img.old × (u ≡ new_user (vol img.old)) × (u < 256) × (user_need (vol img.old) u ≤ unreserved (vol img.old)) }
    ensures { vol img.new ≡ create_user (lowest_free (pages img.old)) (pages img.old) (vol img.old) name.now }
{
    user_place(img, u);
    let q = user_page(img, u);
    user_entry(img, q, u, name);
}
