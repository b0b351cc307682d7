// The row of changed words: each as one number of its place, its old and its new value.
ghost use Rattle.std.specs.Prelude.{◌≡◌, ◌<◌, length};
ghost use Rattle.salvage.specs.Row.{packed_change, row_size, Noted};

// Room for the changes.
pub fn no_changes() -> [u64; 9311]
    ensures { length result ≡ row_size }
{
    [0; 9311]
}

// The change at place i as a number.
fn packed_at(i: usize, old: u16, new: u16) -> u64
    requires { i < 268435456 }
    ensures { result ≡ packed_change i old new }
{
    (i as u64) * 4294967296 + u64::from(old) * 65536 + u64::from(new)
}

// The word at place i, which is old, is to become x: where that changes it, number n of the row tells so. How many are told then.
pub(crate) fn note(row: &mut [u64; 9311], i: usize, old: u16, x: u16, n: usize) -> usize
    requires { (i < 268435456) × (n < row_size) × (length row.old ≡ row_size) }
    ensures { Noted row.old i old x n row.new result }
{
    if old == x {
        return n;
    }
    row[n] = packed_at(i, old, x);
    n + 1
}
