// All used entries of the user file, or of the object file, whose entries have a type.
ghost use Rattle.std.specs.Prelude.{◌≡◌, ◌/◌, ◌≤◌, ◌<◌};
ghost use Rattle.book.specs.Decides.{Decides};
ghost use Rattle.book.specs.Words.{vol};
ghost use Rattle.book.specs.Trees.{page_at};
ghost use Rattle.book.specs.Names.{ends};
ghost use Rattle.book.specs.Image.{pages, Ready};
ghost use Rattle.book.specs.Convert.{remake, remake_all};
ghost use Rattle.convert.specs.Kinds.{file_of, entries_of, refilled_entry, FilledAt, FilledTo};

use crate::entry::{entry_filled, refill_entry};
use tree::entry::entry_used;
use tree::root::{object_page, user_page};

// The page of entry n, 0 where it is absent.
fn page_of(img: &[u16], typed: bool, n: usize) -> usize
    requires { Ready img.now }
    ensures { (result ≡ page_at (vol img.now) (file_of typed (vol img.now)) (n / 32)) × (result < pages img.now) }
{
    if typed {
        object_page(img, n)
    } else {
        user_page(img, n)
    }
}

// Whether entry n has exactly this fill, if it is used.
fn one_filled(img: &[u16], typed: bool, n: usize, mark: u8) -> bool
    requires { Ready img.now }
    ensures { Decides result (FilledAt typed mark (vol img.now) n) }
{
    let q = page_of(img, typed, n);
    !entry_used(img, q, n) || entry_filled(img, q, n, typed, mark)
}

// Whether the first `count` entries have.
pub fn all_filled(img: &[u16], typed: bool, count: usize, mark: u8) -> bool
    requires { Ready img.now }
    ensures { Decides result (FilledTo typed mark (vol img.now) count) }
{
    (0..count).all(|n| one_filled(img, typed, n, mark))
}

// Entry n gets this fill, if it is used.
fn refill_one(img: &mut [u16], typed: bool, n: usize, mark: u8)
    requires { Ready img.old }
    ensures { vol img.new ≡ remake (file_of typed) (refilled_entry typed mark) (vol img.old) n }
{
    let p = page_of(img, typed, n);
    if !entry_used(img, p, n) {
        return;
    }
    refill_entry(img, p, n, typed, mark);
}

// The first `count` entries do. The image is sound after each.
pub fn refill_all(img: &mut [u16], typed: bool, count: usize, mark: u8)
    requires { Ready img.old × (count ≤ entries_of typed) × (0 < ends mark) }
    ensures { vol img.new ≡ remake_all (file_of typed) (refilled_entry typed mark) (vol img.old) count }
{
    for n in 0..count {
        refill_one(img, typed, n, mark);
    }
}
