// The second pass: the changes that the row tells of are written.
ghost use Rattle.std.specs.Prelude.{◌≡◌, ℕ, ◌≤◌, ◌<◌, length, get_or};
ghost use Rattle.salvage.specs.Row.{row_size};
ghost use Rattle.salvage.specs.Applied.{packed_place, packed_new, applied};

// The place of a change.
fn place_of(x: u64) -> usize
    ensures { (result ≡ packed_place x) × (result < 4294967296) }
{
    (x / 4294967296) as usize
}

// Its new value.
fn new_of(x: u64) -> u16
    ensures { result ≡ packed_new x }
{
    (x % 65536) as u16
}

// The first n changes of the row are written into the image.
pub(crate) fn apply(img: &mut [u16], row: &[u64; 9311], n: usize)
    requires { (n ≤ row_size) × (length row.now ≡ row_size) × ((k : ℕ) → k < n → packed_place (get_or row.now k 0) < length img.old) }
    ensures { img.new ≡ applied img.old row.now n }
{
    for &x in &row[..n] {
        img[place_of(x)] = new_of(x);
    }
}
