// The entries of a file and of its owner: what they say before a step, and what they become.
ghost use Rattle.std.specs.Prelude.{◌≡◌, ◌*◌, ◌+◌, ◌<◌};
ghost use Rattle.book.specs.Words.{vol, put2, zeros};
ghost use Rattle.book.specs.Pointers.{pointer, set_slot};
ghost use Rattle.book.specs.Entries.{file_entry, entry_word, put_entry};
ghost use Rattle.book.specs.Image.{pages, Ready};
ghost use Rattle.book.specs.Grow.{finish as finishOf, index_of};
ghost use Rattle.growth.specs.Head.{HeadOf};

use page::INDEXED;
use page::entry::{BYTES, EntryPlace, PAGE_BYTES, PAGES, POINTER, USED, clear_entry};
use page::read::{Pointer, slot_at};
use page::write::{pointer_to, put_two};
use seek::files::entry_number;
use tree::entry::{entry_pointer, entry_two};
use tree::root::{object_page, user_page};

// What a step knows of its file: the pages of the two entries, where the bit file begins, the file's pointer, its pages and its owner's used pages.
// The pointer's flags stay the number of the paper: `HeadOf`, `held_by` and `index_of` speak of it.
#[derive(Clone, Copy)]
pub struct Head {
    pub owner: usize,
    pub entry: usize,
    pub bits: usize,
    pub pointer: Pointer,
    pub count: usize,
    pub used: usize,
}

// The head of file f of user u.
pub(crate) fn head_of(img: &[u16], u: usize, f: usize) -> Head
    requires { Ready img.now × (u < 256) × (f < 256) }
    ensures { HeadOf (pages img.now) (vol img.now) u (file_entry u f) result }
{
    let e = entry_number(u, f);
    let owner = user_page(img, u);
    let entry = object_page(img, e);
    let bits = bits::bit_page(img);
    let pointer = entry_pointer(img, entry, e, POINTER);
    let count = entry_two(img, entry, e, PAGES) as usize;
    let used = entry_two(img, owner, u, USED) as usize;
    Head {
        owner,
        entry,
        bits,
        pointer,
        count,
        used,
    }
}

// The index block that holds position n of a file, by its pointer.
pub(crate) fn index_of(img: &[u16], pointer: Pointer, n: usize) -> usize
    requires { (0 < pointer.flags) × (pointer.page < pages img.now) × (n < 262144) }
    ensures { result ≡ index_of (vol img.now) pointer.flags pointer.page n }
{
    if pointer.flags == INDEXED {
        return pointer.page;
    }
    slot_at(img, pointer.page, n / 512)
}

// Pointer n of the block in page b becomes d.
// Here and below `as` between usize and u32: there is no `From`, and `try_from` would want an answer where the contract leaves none to give.
pub(crate) fn set_slot(img: &mut [u16], b: usize, n: usize, d: usize)
    requires { (b < pages img.old) × (n < 512) × (d < 4294967296) }
    ensures { vol img.new ≡ set_slot (vol img.old) b n d }
{
    put_two(img, b, 2 * n, d as u32);
}

// The entries of file f of user u become those of a file of n pages, with this pointer, and an owner who has used so many.
pub(crate) fn enter(
    img: &mut [u16],
    u: usize,
    f: usize,
    h: Head,
    n: usize,
    root: Pointer,
    used: usize,
)
    requires { (u < 256) × (f < 256) × (h.owner < pages img.old) × (h.entry < pages img.old) × (n < 2097152) × (root.flags < 4) × (root.page < 1073741824) × (used < 4294967296) }
    ensures { vol img.new ≡ finishOf (vol img.old) h.owner h.entry u (file_entry u f) n (pointer root.flags root.page) used }
{
    let file = EntryPlace::of(entry_number(u, f)).word;
    let user = EntryPlace::of(u).word;
    let count = n as u32;
    put_two(img, h.entry, file + PAGES, count);
    put_two(img, h.entry, file + BYTES, PAGE_BYTES * count);
    put_two(
        img,
        h.entry,
        file + POINTER,
        pointer_to(root.flags, root.page),
    );
    put_two(img, h.owner, user + USED, used as u32);
}

// The entry of file f of user u becomes zeros, and its owner has used so many.
pub(crate) fn erase(img: &mut [u16], u: usize, f: usize, h: Head, used: usize)
    requires { (u < 256) × (f < 256) × (h.owner < pages img.old) × (h.entry < pages img.old) × (used < 4294967296) }
    ensures { vol img.new ≡ put2 (put_entry (vol img.old) h.entry (file_entry u f) zeros) h.owner (entry_word u + 16) used }
{
    let file = EntryPlace::of(entry_number(u, f)).word;
    let user = EntryPlace::of(u).word;
    clear_entry(img, h.entry, file);
    put_two(img, h.owner, user + USED, used as u32);
}
