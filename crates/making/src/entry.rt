// The words of a new entry, cleared and then written field by field.
ghost use Rattle.std.specs.Prelude.{◌≡◌, ◌+◌, ◌*◌, ◌≤◌, ◌<◌, length};
ghost use Rattle.book.specs.Words.{Words, Vol, vol, put_words};
ghost use Rattle.book.specs.Entries.{put_entry};
ghost use Rattle.book.specs.Image.{pages, most_pages};
ghost use Rattle.book.specs.Create.{user_entry, object_entry};
ghost use Rattle.making.specs.Entry.{begun, numbered};

use page::entry::{
    BYTES, CREATED, EntryPlace, INDEX, NAME, NUMBER, OWNER, PAGE_BYTES, PAGES, POINTER, TYPE,
    clear_entry,
};
use page::names::put_text;
use page::write::{put_two, put_word};

// Bit 15 of word 0: the entry is used.
const IN_USE: u16 = 32768;

// The entry at word k of page q is cleared, marked used and named.
fn begin_entry(img: &mut [u16], q: usize, k: usize, name: &[u8])
    requires { (1024 * q + 1024 ≤ length img.old) × (k + 32 ≤ 1024) }
    ensures { vol img.new ≡ put_words (vol img.old) q k 32 (begun name.now) }
{
    clear_entry(img, q, k);
    put_word(img, q, k, IN_USE);
    put_text(img, q, k + NAME, 8, name);
}

// Entry u of page q becomes that of a new user u.
// Here and below `as` makes a number from usize narrower: there is no `From`, and `try_from` would want an answer where the contract leaves none to give.
pub fn user_entry(img: &mut [u16], q: usize, u: usize, name: &[u8])
    requires { (q < pages img.old) × (u < 256) }
    ensures { vol img.new ≡ put_entry (vol img.old) q u (user_entry u name.now) }
{
    let k = EntryPlace::of(u).word;
    begin_entry(img, q, k, name);
    put_word(img, q, k + INDEX, u as u16);
}

// The numbers of the object whose entry w is being written at word k of page q.
fn put_numbers(
    img: &mut [u16],
    q: usize,
    k: usize,
    u: usize,
    e: usize,
    created: u32,
    n: u32,
    ptr: u32,
)
    requires { (1024 * q + 1024 ≤ length img.old) × (k + 32 ≤ 1024) × (u < 256) × (e < 65536) × (n ≤ most_pages) }
    ensures { (x : Vol) (w : Words) → vol img.old ≡ put_words x q k 32 w → vol img.new ≡ put_words x q k 32 (numbered w u e created n ptr) }
{
    put_word(img, q, k + OWNER, u as u16);
    put_word(img, q, k + NUMBER, e as u16);
    put_two(img, q, k + CREATED, created);
    put_two(img, q, k + PAGES, n);
    put_two(img, q, k + BYTES, PAGE_BYTES * n);
    put_two(img, q, k + POINTER, ptr);
}

// Entry e of page q becomes that of a new file of user u, of n pages behind the pointer ptr.
pub fn object_entry(
    img: &mut [u16],
    q: usize,
    u: usize,
    e: usize,
    name: &[u8],
    kind: &[u8],
    created: u32,
    n: u32,
    ptr: u32,
)
    requires { (q < pages img.old) × (u < 256) × (e < 65536) × (n ≤ most_pages) }
    ensures { vol img.new ≡ put_entry (vol img.old) q e (object_entry u e name.now kind.now created n ptr) }
{
    let k = EntryPlace::of(e).word;
    begin_entry(img, q, k, name);
    put_text(img, q, k + TYPE, 2, kind);
    put_numbers(img, q, k, u, e, created, n, ptr);
}
