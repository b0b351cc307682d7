// Deleting a file: its entry is cleared, its owner is charged with its pages no more, and all its pages are freed.
ghost use Rattle.std.specs.Prelude.{◌≡◌, ◌≤◌, ◌<◌};
ghost use Rattle.book.specs.Words.{vol};
ghost use Rattle.book.specs.Entries.{object, used, file_entry};
ghost use Rattle.book.specs.Image.{pages, most_pages, Ready};
ghost use Rattle.book.specs.Delete.{delete_file};
ghost use Rattle.growth.specs.Head.{FileHead, held_by};

use crate::entries::{Head, erase, head_of};
use crate::free::free_root;

// The pages that a file of n pages holds, by the flags of its pointer: those of a run alone, or with index blocks and a subindex block.
fn held(flags: u16, n: usize) -> usize
    requires { n ≤ most_pages }
    ensures { result ≡ held_by flags n }
{
    if flags == 0 {
        return n;
    }
    let indexes = n.div_ceil(512);
    if n <= 512 {
        return n + indexes;
    }
    n + indexes + 1
}

// The file with this head goes.
fn delete_head(img: &mut [u16], u: usize, f: usize, h: Head)
    requires { FileHead img.old u f h }
    ensures { vol img.new ≡ delete_file (pages img.old) (vol img.old) u f }
{
    let gone = held(h.pointer.flags, h.count);
    erase(img, u, f, h, h.used - gone);
    free_root(img, h.bits, h.pointer, h.count);
}

// File f of user u goes.
pub fn delete_file_step(img: &mut [u16], u: usize, f: usize)
    requires { Ready img.old × (u < 256) × (f < 256) × (0 < used (object (vol img.old) (file_entry u f))) }
    ensures { vol img.new ≡ delete_file (pages img.old) (vol img.old) u f }
{
    let h = head_of(img, u, f);
    delete_head(img, u, f, h);
}
