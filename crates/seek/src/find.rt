// Finding a user or a file by name: the entries on 8 pages of the user file or the object file, absent pages skipped.
// Each `as` is between a u32 and a usize: no `From` leads there, and a `try_from` would ask again what is proved.
ghost use Rattle.std.specs.Prelude.{ℕ, ◌+◌, ◌*◌, ◌<◌, option_copied};
ghost use Rattle.book.specs.Words.{vol};
ghost use Rattle.book.specs.Trees.{root_by};
ghost use Rattle.book.specs.Entries.{entry, object_pages};
ghost use Rattle.book.specs.Image.{pages, Ready};
ghost use Rattle.book.specs.Decides.{Decides};
ghost use Rattle.book.specs.Calls.{IsUser, IsFile};
ghost use Rattle.tree.specs.Reach.{Reach, entry_in};
ghost use Rattle.seek.specs.Search.{FoundBy, Fits};

use page::entry::{EntryPlace, NAME, TYPE};
use page::names::named_at;
use page::read::{Pointer, pointer_at};
use page::{OBJECTS, USERS};
use tree::entry::entry_used;
use tree::root::root_page;

// Entry k of page q is used, has this name and, if a type is asked for, this type.
fn fits(img: &[u16], q: usize, k: usize, name: &[u8], kind: Option<&[u8]>) -> bool
    requires { (0 < q) × (q < pages img.now) }
    ensures { Decides result (Fits name.now (option_copied kind.entry) (entry_in (vol img.now) q k)) }
{
    let w = EntryPlace::of(k).word;
    entry_used(img, q, k)
        && named_at(img, q, w + NAME, 16, name)
        && kind.is_none_or(|t| named_at(img, q, w + TYPE, 4, t))
}

// The lowest entry of page q that fits, counted on the page; an absent page has none.
fn find_on(img: &[u16], q: usize, name: &[u8], kind: Option<&[u8]>) -> Option<u32>
    requires { q < pages img.now }
    ensures { FoundBy (λ (k : ℕ). (k < 32) × Fits name.now (option_copied kind.entry) (entry_in (vol img.now) q k)) result }
{
    if q == 0 {
        return None;
    }
    (0..32).find(|&k| fits(img, q, k as usize, name, kind))
}

// The lowest of the 256 entries from page b of a file of entries on that fits; the file by the flags and the page of its pointer.
fn find_in(img: &[u16], pointer: Pointer, b: usize, name: &[u8], kind: Option<&[u8]>) -> Option<u32>
    requires { Reach img.now (root_by pointer.flags pointer.page 0) × (b < object_pages) }
    ensures { FoundBy (λ (n : ℕ). (n < 256) × Fits name.now (option_copied kind.entry) (entry (vol img.now) (root_by pointer.flags pointer.page 0) (32 * b + n))) result }
{
    for i in 0..8 {
        let q = root_page(img, pointer, 0, b + i);
        if let Some(k) = find_on(img, q, name, kind) {
            return Some(32 * i as u32 + k);
        }
    }
    None
}

// The user of this name.
pub fn find_user(img: &[u16], name: &[u8]) -> Option<u32>
    requires { Ready img.now }
    ensures { FoundBy (IsUser (vol img.now) name.now) result }
{
    let pointer = pointer_at(img, 0, USERS);
    find_in(img, pointer, 0, name, None)
}

// The file of this user, name and type.
pub fn find_file(img: &[u16], user: usize, name: &[u8], kind: &[u8]) -> Option<u32>
    requires { Ready img.now × (user < 256) }
    ensures { FoundBy (IsFile (vol img.now) user name.now kind.now) result }
{
    let pointer = pointer_at(img, 0, OBJECTS);
    find_in(img, pointer, 8 * user, name, Some(kind))
}
