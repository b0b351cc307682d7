// The list of changes that a caller lends: its first records are stored from the row of numbers, by `fill` alone.
ghost use Rattle.std.specs.Prelude.{◌≡◌, ◌++◌, map, ◌<◌, ◌≤◌, length, take, drop, get_or};
ghost use Rattle.salvage.specs.Row.{unpacked};

use book::Change;

// The change that a number tells of.
fn change_of(x: u64) -> Change
    ensures { result ≡ unpacked x }
{
    Change {
        page: (x / 4398046511104) as u32,
        word: (x / 4294967296 % 1024) as u32,
        old: (x / 65536 % 65536) as u32,
        new: (x % 65536) as u32,
    }
}

// The change that number k of the row tells of.
pub fn told_at(row: &[u64; 9311], k: usize) -> Change
    requires { k < 9311 }
    ensures { result ≡ unpacked (get_or row.now k 0) }
{
    change_of(row[k])
}

// The first n records of the list become the changes that the first n numbers of the row tell of; the others stay.
pub fn fill(list: &mut [Change], row: &[u64; 9311], n: usize)
    requires { (n ≤ length list.old) × (n ≤ 9311) }
    ensures { list.new ≡ map unpacked (take n row.now) ++ drop n list.old }
{
    let told = &mut list[..n];
    for (k, change) in told.iter_mut().enumerate() {
        *change = told_at(row, k);
    }
}
