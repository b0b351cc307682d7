// A field of n bytes from word k of page p on: what stands behind its name, and its name with another byte and zeros behind it.
ghost use Rattle.std.specs.Prelude.{◌≡◌, [], ◌∷◌, ◌+◌, ◌-◌, ◌*◌, ◌/◌, ◌%◌, ◌≤◌, ◌<◌, length, get_or};
ghost use Rattle.book.specs.Decides.{Decides};
ghost use Rattle.book.specs.Words.{vol, put_words};
ghost use Rattle.book.specs.Names.{byte_at, stored, packed_by};
ghost use Rattle.book.specs.Convert.{Filled};
ghost use Rattle.convert.specs.Bytes.{byte_for};

use page::names::{byte_at, end_at};
use page::write::put_word;

// Byte i of a field whose name ends at l: behind the name the mark, then zeros.
fn behind(i: usize, l: usize, mark: u8) -> u8
    requires { l ≤ i }
    ensures { result ≡ get_or (mark ∷ []) (i - l) 0 }
{
    if i == l { mark } else { 0 }
}

// Whether a short name there has exactly this fill: the mark at its end, then zeros.
pub fn filled_at(img: &[u16], p: usize, k: usize, n: usize, mark: u8) -> bool
    requires { (1024 * p + 1024 ≤ length img.now) × (n % 2 ≡ 0) × (k + n / 2 ≤ 1024) }
    ensures { Decides result (Filled mark n (vol img.now p) k) }
{
    let l = end_at(img, p, k, n);
    for i in l..n {
        if byte_at(img, p, k, i) != behind(i, l, mark) {
            return false;
        }
    }
    true
}

// Byte i of the name with the mark and zeros behind it: b, which stands there, up to the name's end l.
fn byte_for(b: u8, i: usize, l: usize, mark: u8) -> u8
    ensures { (result ≡ byte_for b i l mark) × (result < 256) }
{
    if i < l { b } else { behind(i, l, mark) }
}

// Its word i, from the two bytes that stand there.
fn word_for(img: &[u16], p: usize, k: usize, i: usize, l: usize, mark: u8) -> u16
    requires { (1024 * p + 1024 ≤ length img.now) × (k + i < 1024) }
    ensures { result ≡ byte_for (byte_at (vol img.now p) k (2 * i)) (2 * i) l mark * 256 + byte_for (byte_at (vol img.now p) k (2 * i + 1)) (2 * i + 1) l mark }
{
    let high = byte_for(byte_at(img, p, k, 2 * i), 2 * i, l, mark);
    let low = byte_for(byte_at(img, p, k, 2 * i + 1), 2 * i + 1, l, mark);
    u16::from_be_bytes([high, low])
}

// The field becomes its name with this mark and zeros behind it.
pub fn refill_at(img: &mut [u16], p: usize, k: usize, n: usize, mark: u8)
    requires { (1024 * p + 1024 ≤ length img.old) × (n % 2 ≡ 0) × (k + n / 2 ≤ 1024) }
    ensures { vol img.new ≡ put_words (vol img.old) p k (n / 2) (packed_by mark (stored n (vol img.old p) k)) }
{
    let l = end_at(img, p, k, n);
    for i in 0..n / 2 {
        let w = word_for(img, p, k, i, l, mark);
        put_word(img, p, k + i, w);
    }
}
