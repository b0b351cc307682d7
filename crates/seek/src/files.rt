// A file's entry, by its number 256 u + f or by user and file: is it there, how many pages, what kind.
ghost use Rattle.std.specs.Prelude.{◌≡◌, ◌<◌};
ghost use Rattle.book.specs.Words.{vol};
ghost use Rattle.book.specs.Pointers.{flags};
ghost use Rattle.book.specs.Entries.{object, used, file_entry, page_count, file_pointer};
ghost use Rattle.book.specs.Image.{Ready};
ghost use Rattle.book.specs.Decides.{Decides};
ghost use Rattle.book.specs.Calls.{HasFile, Grows, Shrinks};

use crate::users::has_user;
use page::entry::{PAGES, POINTER};
use tree::entry::{entry_flags, entry_two, entry_used};
use tree::root::object_page;

// The entry number of file f of user u.
pub fn entry_number(u: usize, f: usize) -> usize
    requires { (u < 256) × (f < 256) }
    ensures { (result ≡ file_entry u f) × (result < 65536) }
{
    256 * u + f
}

// Object entry e is used.
pub fn object_used(img: &[u16], e: usize) -> bool
    requires { Ready img.now }
    ensures { Decides result (0 < used (object (vol img.now) e)) }
{
    let q = object_page(img, e);
    entry_used(img, q, e)
}

// File f of user u is there.
pub fn has_file(img: &[u16], u: usize, f: usize) -> bool
    requires { Ready img.now × (u < 256) × (f < 256) }
    ensures { Decides result (HasFile (vol img.now) u f) }
{
    has_user(img, u) && object_used(img, entry_number(u, f))
}

// The pages of the file in object entry e.
pub fn page_count(img: &[u16], e: usize) -> u32
    requires { Ready img.now }
    ensures { (result ≡ page_count (object (vol img.now) e)) × (result < 4294967296) }
{
    let q = object_page(img, e);
    entry_two(img, q, e, PAGES)
}

// The flags of its pointer.
pub fn file_flags(img: &[u16], e: usize) -> u16
    requires { Ready img.now }
    ensures { (result ≡ flags (object (vol img.now) e) file_pointer) × (result < 4) }
{
    let q = object_page(img, e);
    entry_flags(img, q, e, POINTER)
}

// The file in object entry e can grow: it is no contiguous one.
pub fn grows(img: &[u16], e: usize) -> bool
    requires { Ready img.now }
    ensures { Decides result (Grows (vol img.now) e) }
{
    file_flags(img, e) != 0 || page_count(img, e) == 0
}

// It can shrink: it can grow, and has a page.
pub fn shrinks(img: &[u16], e: usize) -> bool
    requires { Ready img.now }
    ensures { Decides result (Shrinks (vol img.now) e) }
{
    grows(img, e) && page_count(img, e) != 0
}
