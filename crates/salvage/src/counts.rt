// What the files of each user hold, and what the sum leaves as unreserved.
ghost use Rattle.std.specs.Prelude.{◌≡◌, ◌+◌, ◌*◌, ◌≤◌, ◌<◌, length, get_or};
ghost use Rattle.sums.specs.Sum.{sum as sum_of};
ghost use Rattle.book.specs.Entries.{user, user_file};
ghost use Rattle.book.specs.Holders.{all, some};
ghost use Rattle.book.specs.Image.{pages};
ghost use Rattle.book.specs.Words.{vol};
ghost use Rattle.shape.specs.Counts.{count_in};
ghost use Rattle.shape.specs.Objects.{ObjectsAt};
ghost use Rattle.tree.specs.Ends.{Ends};
ghost use Rattle.tree.specs.Reach.{Reach};
ghost use Rattle.salvage.specs.Facts.{PastThree, Tallied, Balanced};

use book::Refusal;
use page::OBJECTS;
use page::entry::GIVEN;
use page::read::{Pointer, pointer_at};
use shape::counts::user_pages;
use shape::tally::{count_of, users_sum};
use tree::root::user_page;

// Room for a count of each user.
pub(crate) fn no_counts() -> [u32; 256]
    ensures { length result ≡ 256 }
{
    [0; 256]
}

// The pages given to user u, 0 of an unused one.
fn given_to(img: &[u16], u: usize) -> u64
    requires { Reach img.now (user_file (vol img.now)) }
    ensures { (result ≡ count_in 14 (user (vol img.now) u)) × (result < 4294967296) }
{
    let q = user_page(img, u);
    count_of(img, q, u, GIVEN)
}

// The pages of the files of each user, up to one that holds more than he was given. The object pointer has these flags and this page, and the
// object file ends at `ends`.
fn count_all(img: &[u16], pointer: Pointer, ends: usize, counts: &mut [u32; 256]) -> bool
    requires { ObjectsAt img.now pointer.flags pointer.page × Ends img.now ends × Reach img.now (user_file (vol img.now)) × (length counts.old ≡ 256) }
    ensures { Tallied (vol img.now) counts.new result }
{
    for u in 0..256 {
        let n = user_pages(img, pointer, ends, u);
        if given_to(img, u) < n {
            return false;
        }
        counts[u] = n as u32;
    }
    true
}

// The sum of the counts.
fn sum_counts(counts: &[u32; 256]) -> u64
    requires { length counts.now ≡ 256 }
    ensures { (result ≡ sum_of 256 (λ u. get_or counts.now u 0)) × (result ≤ 256 * 4294967296) }
{
    let mut sum = 0;
    for &n in counts {
        sum += u64::from(n);
    }
    sum
}

// Number 13: a user holds more than he was given, or the sum is below zero. Where it does not apply, the counts, and what is left as
// unreserved. A walk has visited so many pages: those less the files' own are the system pages.
pub(crate) fn balance(
    img: &[u16],
    total: usize,
    visits: u32,
    ends: usize,
    counts: &mut [u32; 256],
) -> Result<u32, Refusal>
    requires { PastThree img.now × (total ≡ pages img.now) × (visits ≡ 1 + all (pages img.now) (vol img.now) some) × Ends img.now ends × (length counts.old ≡ 256) }
    ensures { Balanced (pages img.now) (vol img.now) counts.new result }
{
    let pointer = pointer_at(img, 0, OBJECTS);
    if !count_all(img, pointer, ends, counts) {
        return Err(Refusal::Overdrawn);
    }
    let have = total as u64 + sum_counts(counts);
    let spent = users_sum(img, GIVEN) + u64::from(visits);
    if have < spent {
        return Err(Refusal::Overdrawn);
    }
    Ok((have - spent) as u32)
}
