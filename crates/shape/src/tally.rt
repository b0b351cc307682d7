// Sums over the users, page by page: an absent page has no used users.
ghost use Rattle.std.specs.Prelude.{◌≡◌, ◌+◌, ◌*◌, ◌%◌, ◌≤◌, ◌<◌};
ghost use Rattle.sums.specs.Sum.{sum as sum_of};
ghost use Rattle.book.specs.Entries.{user, user_file};
ghost use Rattle.book.specs.Image.{pages};
ghost use Rattle.book.specs.Words.{vol};
ghost use Rattle.tree.specs.Reach.{Reach, entry_in};
ghost use Rattle.shape.specs.Counts.{count_in};

use tree::entry::{entry_two, entry_used};
use tree::root::user_page;

// The number at word k of entry u on page q, 0 of an unused one.
pub fn count_of(img: &[u16], q: usize, u: usize, k: usize) -> u64
    requires { (q < pages img.now) × (k < 31) }
    ensures { (result ≡ count_in k (entry_in (vol img.now) q u)) × (result < 4294967296) }
{
    if !entry_used(img, q, u) {
        return 0;
    }
    u64::from(entry_two(img, q, u, k))
}

// The sum of the numbers at word k of the 32 users from `first` on, a page of them.
fn page_sum(img: &[u16], k: usize, first: usize) -> u64
    requires { Reach img.now (user_file (vol img.now)) × (k < 31) × (first % 32 ≡ 0) × (first < 256) }
    ensures { (result ≡ sum_of 32 (λ i. count_in k (user (vol img.now) (first + i)))) × (result ≤ 32 * 4294967296) }
{
    let q = user_page(img, first);
    if q == 0 {
        return 0;
    }
    // A loop: map and sum were tried, and leave that the sum fits, what it is and its bound; of the loop two lines are left.
    let mut sum: u64 = 0;
    for i in 0..32 {
        sum += count_of(img, q, first + i, k);
    }
    sum
}

// The sum of the numbers at word k of all used users.
pub fn users_sum(img: &[u16], k: usize) -> u64
    requires { Reach img.now (user_file (vol img.now)) × (k < 31) }
    ensures { (result ≡ sum_of 256 (λ u. count_in k (user (vol img.now) u))) × (result ≤ 256 * 4294967296) }
{
    let mut sum: u64 = 0;
    for p in 0..8 {
        sum += page_sum(img, k, 32 * p);
    }
    sum
}
