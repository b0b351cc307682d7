// The users ascending, each followed by his files ascending.
ghost use Rattle.std.specs.Prelude.{ℕ, ◌+◌, ◌*◌, ◌≤◌, ◌<◌};
ghost use Rattle.book.specs.Words.{vol};
ghost use Rattle.book.specs.Image.{pages, Ready};
ghost use Rattle.book.specs.Listing.{joined, file_of, user_lines, listing};
ghost use Rattle.listing.specs.Wrote.{far, Wrote};

use crate::lines::{put_file, put_head, put_user};
use seek::users::has_user;
use tree::root::object_page;

// The lines of user u's files on page i of his 8; an absent page has none.
fn put_page(img: &[u16], out: &mut [u8], at: usize, u: usize, i: usize) -> usize
    requires { Ready img.now × (u < 256) × (i < 8) × (at < 3 * far) }
    ensures { Wrote (joined (λ (k : ℕ). file_of (vol img.now) u (32 * i + k)) 32) out.old at out.new result × (result ≤ at + 4096) }
{
    let b = 256 * u + 32 * i;
    let q = object_page(img, b);
    if q == 0 {
        return at;
    }
    let mut z = at;
    for k in 0..32 {
        z = put_file(img, out, z, q, b + k, 32 * i + k);
    }
    z
}

// The lines of user u's files.
fn put_files(img: &[u16], out: &mut [u8], at: usize, u: usize) -> usize
    requires { Ready img.now × (u < 256) × (at < 2 * far) }
    ensures { Wrote (joined (file_of (vol img.now) u) 256) out.old at out.new result × (result ≤ at + 32768) }
{
    let mut z = at;
    for i in 0..8 {
        z = put_page(img, out, z, u, i);
    }
    z
}

// User u's line and those of his files; none if he is not there.
fn put_user_lines(img: &[u16], out: &mut [u8], at: usize, u: usize) -> usize
    requires { Ready img.now × (u < 256) × (at < far) }
    ensures { Wrote (user_lines (vol img.now) u) out.old at out.new result × (result ≤ at + 40000) }
{
    if !has_user(img, u) {
        return at;
    }
    let z = put_user(img, out, at, u);
    put_files(img, out, z, u)
}

// The whole listing of a sound image.
pub fn put_listing(img: &[u16], out: &mut [u8]) -> usize
    requires { Ready img.now }
    ensures { Wrote (listing (pages img.now) (vol img.now)) out.old 0 out.new result }
{
    let mut z = put_head(img, out);
    for u in 0..256 {
        z = put_user_lines(img, out, z, u);
    }
    z
}
