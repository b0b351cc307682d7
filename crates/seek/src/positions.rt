// Positions of a file: which are there, and the page at each.
ghost use Rattle.std.specs.Prelude.{◌≡◌, ◌<◌};
ghost use Rattle.book.specs.Words.{vol};
ghost use Rattle.book.specs.Trees.{page_at};
ghost use Rattle.book.specs.Entries.{file_entry};
ghost use Rattle.book.specs.Files.{file_at};
ghost use Rattle.book.specs.Image.{pages, Ready};
ghost use Rattle.book.specs.Decides.{Decides};
ghost use Rattle.book.specs.Calls.{HasPosition};

use crate::files::{entry_number, has_file, page_count};
use tree::file::file_page;

// Position n of file f of user u is there.
pub fn has_position(img: &[u16], u: usize, f: usize, n: usize) -> bool
    requires { Ready img.now × (u < 256) × (f < 256) }
    ensures { Decides result (HasPosition (vol img.now) u f n) }
{
    has_file(img, u, f) && n < page_count(img, entry_number(u, f)) as usize
}

// The page at position n of file f of user u.
pub fn address(img: &[u16], u: usize, f: usize, n: usize) -> usize
    requires { Ready img.now × (u < 256) × (f < 256) }
    ensures { (result ≡ page_at (vol img.now) (file_at (vol img.now) (file_entry u f)) n) × (result < pages img.now) × (HasPosition (vol img.now) u f n → 0 < result) }
{
    file_page(img, entry_number(u, f), n)
}
