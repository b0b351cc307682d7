// Format: the directory entry and the bit file are written. The image need not be sound.
// Each `as` is from a usize to a u32: no `From` leads there, and a `try_from` would ask again what is proved.
ghost use Rattle.std.specs.Prelude.{◌≡◌, ℕ, ◌+◌, ◌-◌, ◌*◌, ◌/◌, ◌<◌, ◌≤◌, length};
ghost use Rattle.book.specs.Words.{vol};
ghost use Rattle.book.specs.Bits.{bit_pages};
ghost use Rattle.book.specs.Names.{NameText};
ghost use Rattle.book.specs.Image.{pages, most_pages, Whole, BitArg};
ghost use Rattle.book.specs.Format.{wipe_run, mark_run, directory, format};
ghost use Rattle.bits.specs.File.{BitsAt};

use bits::bit_pages;
use page::names::put_text;
use page::write::{put_two, zero_page};
use page::{BITS, OBJECTS, UNRESERVED, USERS, VOLUME, WORDS};

// All pages but the master page and the bit file.
fn rest_of(pages: usize) -> u32
    requires { (bit_pages pages < pages) × (pages ≤ most_pages) }
    ensures { result ≡ pages - 1 - bit_pages pages }
{
    (pages - 1 - bit_pages(pages)) as u32
}

// The directory entry: the name, no users and no objects, the bit file from b on, all but it and the master page unreserved.
fn put_directory(img: &mut [u16], name: &[u8], b: usize)
    requires { Whole img.old × BitArg (pages img.old) b }
    ensures { vol img.new ≡ directory (pages img.old) (vol img.old) name.now b }
{
    let rest = rest_of(img.len() / WORDS);
    put_text(img, 0, VOLUME, 8, name);
    put_two(img, 0, OBJECTS, 0);
    put_two(img, 0, USERS, 0);
    put_two(img, 0, BITS, b as u32);
    put_two(img, 0, UNRESERVED, rest);
}

// The n pages from b on become zeros.
fn wipe_run(img: &mut [u16], b: usize, n: usize)
    requires { 1024 * (b + n) ≤ length img.old }
    ensures { vol img.new ≡ wipe_run (vol img.old) b n }
{
    for i in 0..n {
        zero_page(img, b + i);
    }
}

// The n pages from b on, where the bit file begins, are reserved.
fn set_run(img: &mut [u16], b: usize, n: usize)
    requires { (1024 * b + (b + n + 15) / 16 ≤ length img.old) × (1024 * (b + n) ≤ length img.old) }
    ensures { (P : ℕ) → BitsAt P (vol img.old) b → b + n ≤ P → vol img.new ≡ mark_run P (vol img.old) b n }
{
    for i in 0..n {
        bits::set(img, b, b + i);
    }
}

// A new volume: only the master page and the bit file, from page b on, are reserved.
pub fn format_step(img: &mut [u16], name: &[u8], b: usize)
    requires { Whole img.old × NameText name.now × BitArg (pages img.old) b }
    ensures { vol img.new ≡ format (pages img.old) (vol img.old) name.now b }
{
    let n = bit_pages(img.len() / WORDS);
    put_directory(img, name, b);
    wipe_run(img, b, n);
    bits::set(img, b, 0);
    set_run(img, b, n);
}
