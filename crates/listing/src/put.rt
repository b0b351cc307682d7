// Writing into a lent buffer: each function writes its text from byte `at` on, as far as the buffer reaches, and gives the place after it.
ghost use Rattle.std.specs.Prelude.{◌≡◌, ◌∷◌, ◌+◌, ◌*◌, ◌≤◌, ◌<◌, length, set};
ghost use Rattle.book.specs.Listing.{digits, decimal, field};
ghost use Rattle.listing.specs.Wrote.{far, Wrote};

// One byte; the buffer stays as it is where it does not reach. Not by `get_mut`: std says nothing of what the slice then ends as, so the clause did not close.
pub(crate) fn put(out: &mut [u8], at: usize, b: u8)
    ensures { out.new ≡ set out.old at b }
{
    if at < out.len() {
        out[at] = b;
    }
}

// The bytes of s.
pub fn put_bytes(out: &mut [u8], at: usize, s: &[u8]) -> usize
    requires { (at < 6 * far) × (length s.now ≤ 16) }
    ensures { Wrote s.now out.old at out.new result }
{
    for (i, &b) in s.iter().enumerate() {
        put(out, at + i, b);
    }
    at + s.len()
}

// The last k digits of n, without zeros in front. Not by `Display`: that wants a `fmt::Write` of its own over a buffer that may end early, with a model and more proof than these lines, and the clause speaks of the book's `digits`, one at a time.
fn put_digits(out: &mut [u8], at: usize, n: usize, k: usize) -> usize
    requires { (at < 6 * far) × (k ≤ 10) }
    ensures { Wrote (digits k n) out.old at out.new result × (result ≤ at + k) }
{
    if k == 0 {
        return at;
    }
    if n < 10 {
        put(out, at, b'0' + n as u8);
        return at + 1;
    }
    let z = put_digits(out, at, n / 10, k - 1);
    put(out, z, b'0' + (n % 10) as u8);
    z + 1
}

// A word and a number.
pub fn put_field(out: &mut [u8], at: usize, label: &[u8], n: usize) -> usize
    requires { (at < 5 * far) × (length label.now ≤ 16) }
    ensures { Wrote (field label.now n) out.old at out.new result × (result ≤ at + 26) }
{
    let z = put_bytes(out, at, label);
    put_digits(out, z, n, 10)
}
