// Unused entries: the index of a new user or file, and whether a user has no file.
ghost use Rattle.std.specs.Prelude.{◌≡◌, ◌≤◌, ◌<◌};
ghost use Rattle.book.specs.Words.{vol};
ghost use Rattle.book.specs.Entries.{new_user, new_file};
ghost use Rattle.book.specs.Image.{Ready};
ghost use Rattle.book.specs.Decides.{Decides};
ghost use Rattle.book.specs.Calls.{NoFiles};

use crate::files::{entry_number, object_used};
use crate::users::has_user;

// The lowest unused user index, 256 if there is none, as the book's `new_user` counts.
pub fn free_user(img: &[u16]) -> usize
    requires { Ready img.now }
    ensures { (result ≡ new_user (vol img.now)) × (result ≤ 256) }
{
    (0..256).find(|&u| !has_user(img, u)).unwrap_or(256)
}

// The lowest unused file index of user u, 256 if there is none, as the book's `new_file` counts.
pub fn free_file(img: &[u16], u: usize) -> usize
    requires { Ready img.now × (u < 256) }
    ensures { (result ≡ new_file (vol img.now) u) × (result ≤ 256) }
{
    (0..256)
        .find(|&f| !object_used(img, entry_number(u, f)))
        .unwrap_or(256)
}

// No file of user u is used.
pub fn no_files(img: &[u16], u: usize) -> bool
    requires { Ready img.now × (u < 256) }
    ensures { Decides result (NoFiles (vol img.now) u) }
{
    (0..256).all(|f| !object_used(img, entry_number(u, f)))
}
