// Creating a file: indexed, and then without a page; or contiguous, a run of pages taken at once.
ghost use Rattle.std.specs.Prelude.{◌≡◌, ◌≤◌, ◌<◌};
ghost use Rattle.book.specs.Words.{vol};
ghost use Rattle.book.specs.Bits.{lowest_free, highest_run};
ghost use Rattle.book.specs.Entries.{user, used, spare, file_entry, new_file, unreserved};
ghost use Rattle.book.specs.Image.{pages, Ready, CountArg};
ghost use Rattle.book.specs.Create.{file_need, file_place, create_indexed, create_contiguous};

use crate::entry::object_entry;
use crate::place::file_place;
use page::entry::{EntryPlace, USED};
use page::write::put_two;
use seek::files::entry_number;
use seek::users::used_pages;
use tree::root::{object_page, user_page};

// The place of the new file's entry, then the entry.
pub fn create_indexed_step(
    img: &mut [u16],
    u: usize,
    f: usize,
    name: &[u8],
    kind: &[u8],
    created: u32,
)
    requires { Ready img.old × (u < 256) × (0 < used (user (vol img.old) u)) × (f ≡ new_file (vol img.old) u) × (f < 256) × (file_need (vol img.old) (file_entry u f) ≤ unreserved (vol img.old)) }
    ensures { vol img.new ≡ create_indexed (lowest_free (pages img.old)) (pages img.old) (vol img.old) u name.now kind.now created }
{
    let e = entry_number(u, f);
    file_place(img, e);
    let q = object_page(img, e);
    object_entry(img, q, u, e, name, kind, created, 0, 0);
}

// The place of the new file's entry, the run of n pages from s on, the entry, and the owner's used pages.
pub fn create_contiguous_step(
    img: &mut [u16],
    u: usize,
    f: usize,
    name: &[u8],
    kind: &[u8],
    created: u32,
    n: u32,
    s: usize,
)
    requires { Ready img.old × (u < 256) × (0 < used (user (vol img.old) u)) × (f ≡ new_file (vol img.old) u) × (f < 256) × (file_need (vol img.old) (file_entry u f) ≤ unreserved (vol img.old)) × CountArg n × (n ≤ spare (vol img.old) u) × (s ≡ highest_run (pages img.old) (file_place (lowest_free (pages img.old)) (pages img.old) (vol img.old) (file_entry u f)) n) × (0 < s) }
    ensures { vol img.new ≡ create_contiguous (lowest_free (pages img.old)) (pages img.old) (vol img.old) u name.now kind.now created n }
{
    let e = entry_number(u, f);
    file_place(img, e);
    let b = bits::bit_page(img);
    let q = object_page(img, e);
    let o = user_page(img, u);
    let used = used_pages(img, u);
    let k = EntryPlace::of(u).word;
    bits::claim_run(img, b, s, n as usize);
    object_entry(img, q, u, e, name, kind, created, n, s as u32);
    put_two(img, o, k + USED, used + n);
}
