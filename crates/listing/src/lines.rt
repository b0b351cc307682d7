// The lines of the listing: the volume's, a user's, a file's.
ghost use Rattle.std.specs.Prelude.{◌+◌, ◌*◌, ◌≤◌, ◌<◌};
ghost use Rattle.book.specs.Words.{vol};
ghost use Rattle.book.specs.Entries.{user};
ghost use Rattle.book.specs.Image.{pages, Ready};
ghost use Rattle.book.specs.Calls.{HasUser};
ghost use Rattle.tree.specs.Reach.{entry_in};
ghost use Rattle.book.specs.Listing.{kind_of, head_line, user_line, file_title, file_lines};
ghost use Rattle.listing.specs.Wrote.{far, Wrote};

use crate::name::{put_entry_name, put_name};
use crate::put::{put_bytes, put_field};
use page::entry::{NAME, PAGES, POINTER, TYPE};
use page::{INDEXED, VOLUME};
use seek::users::{given, unreserved, used_pages};
use tree::entry::{entry_flags, entry_two, entry_used};
use tree::root::user_page;

// The volume's line, at the front of the buffer.
pub fn put_head(img: &[u16], out: &mut [u8]) -> usize
    requires { Ready img.now }
    ensures { Wrote (head_line (pages img.now) (vol img.now)) out.old 0 out.new result × (result ≤ 128) }
{
    let total = img.len() / page::WORDS;
    let held = bits::reserved(img, bits::bit_page(img), total);
    let left = unreserved(img) as usize;
    let mut z = put_bytes(out, 0, b"VOLUME ");
    z = put_name(img, out, z, 0, VOLUME, 16);
    z = put_field(out, z, b" PAGES ", total);
    z = put_field(out, z, b" RESERVED ", held);
    z = put_field(out, z, b" UNRESERVED ", left);
    put_bytes(out, z, b"\n")
}

// User u's line.
pub fn put_user(img: &[u16], out: &mut [u8], at: usize, u: usize) -> usize
    requires { Ready img.now × HasUser (vol img.now) u × (at < 4 * far) }
    ensures { Wrote (user_line (user (vol img.now)) u) out.old at out.new result × (result ≤ at + 128) }
{
    let q = user_page(img, u);
    let had = given(img, u) as usize;
    let uses = used_pages(img, u) as usize;
    let mut z = put_field(out, at, b"USER ", u);
    z = put_bytes(out, z, b" ");
    z = put_entry_name(img, out, z, q, u, NAME, 16);
    z = put_field(out, z, b" GIVEN ", had);
    z = put_field(out, z, b" USED ", uses);
    put_bytes(out, z, b"\n")
}

// The kind of a file of n pages, by the flags of its pointer: the paper's number, as `kind_of` of the clause has it.
fn put_kind(out: &mut [u8], at: usize, flags: u16, n: usize) -> usize
    requires { at < 5 * far }
    ensures { Wrote (kind_of flags n) out.old at out.new result × (result ≤ at + 11) }
{
    match flags {
        INDEXED => put_bytes(out, at, b" INDEXED"),
        0 if n == 0 => put_bytes(out, at, b" EMPTY"),
        0 => put_bytes(out, at, b" CONTIGUOUS"),
        _ => put_bytes(out, at, b" SUBINDEXED"),
    }
}

// The front of a file's line: its number, its name and its type.
fn put_title(img: &[u16], out: &mut [u8], at: usize, q: usize, e: usize, f: usize) -> usize
    requires { (0 < q) × (q < pages img.now) × (at < 4 * far) }
    ensures { Wrote (file_title f (entry_in (vol img.now) q e)) out.old at out.new result × (result ≤ at + 64) }
{
    let mut z = put_field(out, at, b"FILE ", f);
    z = put_bytes(out, z, b" ");
    z = put_entry_name(img, out, z, q, e, NAME, 16);
    z = put_bytes(out, z, b":");
    put_entry_name(img, out, z, q, e, TYPE, 4)
}

// The line of file f in entry e on page q; none if the entry is not used.
pub fn put_file(img: &[u16], out: &mut [u8], at: usize, q: usize, e: usize, f: usize) -> usize
    requires { (0 < q) × (q < pages img.now) × (at < 4 * far) }
    ensures { Wrote (file_lines f (entry_in (vol img.now) q e)) out.old at out.new result × (result ≤ at + 128) }
{
    if !entry_used(img, q, e) {
        return at;
    }
    let n = entry_two(img, q, e, PAGES) as usize;
    let flags = entry_flags(img, q, e, POINTER);
    let mut z = put_title(img, out, at, q, e, f);
    z = put_field(out, z, b" PAGES ", n);
    z = put_kind(out, z, flags, n);
    put_bytes(out, z, b"\n")
}
