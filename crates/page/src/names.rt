// Names and types: which are legal, where one ends, when two are equal, how one is written. Comparisons stop at the first difference.
ghost use Rattle.std.specs.Prelude.{◌≡◌, false, [], ◌∷◌, ◌++◌, ℕ, ◌+◌, ◌*◌, ◌/◌, ◌%◌, ◌≤◌, ◌<◌, length, get_or};
ghost use Rattle.book.specs.Decides.{Decides};
ghost use Rattle.book.specs.Words.{vol, put_words};
ghost use Rattle.book.specs.Names.{Letter, Text, apostrophe, packed, byte_at, ends, end_of, stored};
ghost use Rattle.page.specs.Parts.{Begins, Letters};
ghost use Rattle.page.specs.Cut.{cut_word};

use crate::WORDS;
use crate::read::word_at;

// What stands behind a short name.
const APOSTROPHE: u8 = b'\'';

// Whether a byte is one of A-Z, 0-9 and hyphen.
pub fn letter(b: u8) -> bool
    ensures { Decides result (Letter b) }
{
    matches!(b, b'A'..=b'Z' | b'0'..=b'9' | b'-')
}

// Whether s is m to n such bytes.
pub fn text(s: &[u8], m: usize, n: usize) -> bool
    ensures { Decides result (Text m n s.now) }
{
    (m..=n).contains(&s.len()) && s.iter().all(|&b| letter(b))
}

// How many of the n bytes from word k of page p on are letters, up to the first that is not.
fn letters_at(img: &[u16], p: usize, k: usize, n: usize) -> usize
    requires { (1024 * p + 1024 ≤ length img.now) × (n % 2 ≡ 0) × (k + n / 2 ≤ 1024) }
    ensures { Letters n (vol img.now p) k result }
{
    for i in 0..n / 2 {
        let [high, low] = word_at(img, p, k + i).to_be_bytes();
        if !letter(high) {
            return 2 * i;
        }
        if !letter(low) {
            return 2 * i + 1;
        }
    }
    n
}

// Whether a name ends before this byte: an apostrophe, or a zero byte.
fn ends_name(b: u8) -> bool
    ensures { Decides result (0 < ends b) }
{
    b == APOSTROPHE || b == 0
}

// Byte i of those from word k of page p on.
pub fn byte_at(img: &[u16], p: usize, k: usize, i: usize) -> u8
    requires { (1024 * p + 1024 ≤ length img.now) × (k + i / 2 < 1024) }
    ensures { result ≡ byte_at (vol img.now p) k i }
{
    word_at(img, p, k + i / 2).to_be_bytes()[i % 2]
}

// Whether the name in the n bytes from word k of page p on is m or more letters: what follows the letters ends it.
pub fn legal_at(img: &[u16], p: usize, k: usize, m: usize, n: usize) -> bool
    requires { (1024 * p + 1024 ≤ length img.now) × (n % 2 ≡ 0) × (k + n / 2 ≤ 1024) }
    ensures { Decides result (Text m n (stored n (vol img.now p) k)) }
{
    let l = letters_at(img, p, k, n);
    m <= l && (n <= l || ends_name(byte_at(img, p, k, l)))
}

// Where the name in the n bytes from word k of page p on ends.
pub fn end_at(img: &[u16], p: usize, k: usize, n: usize) -> usize
    requires { (1024 * p + 1024 ≤ length img.now) × (n % 2 ≡ 0) × (k + n / 2 ≤ 1024) }
    ensures { result ≡ end_of n (vol img.now p) k }
{
    for i in 0..n {
        if ends_name(byte_at(img, p, k, i)) {
            return i;
        }
    }
    n
}

// What of a word belongs to a name that did not end before it: its bytes up to the end, then zeros.
pub fn cut(w: u16) -> u16
    ensures { result ≡ cut_word w }
{
    let [high, low] = w.to_be_bytes();
    if ends_name(high) {
        return 0;
    }
    if ends_name(low) {
        return w / 256 * 256;
    }
    w
}

// Whether a name that did not end before this word ends in it: what is left of it has a zero low byte then, and else it is whole.
pub fn ends_in(w: u16) -> bool
    ensures { Decides result (cut_word w % 256 ≡ 0) × (result ≡ false → cut_word w ≡ w) }
{
    let [high, low] = w.to_be_bytes();
    ends_name(high) || ends_name(low)
}

// Whether the name in the n bytes from word j of page p on is the one from word k of page q on, which ends at byte l.
pub fn same_at(img: &[u16], p: usize, j: usize, q: usize, k: usize, n: usize, l: usize) -> bool
    requires { (1024 * p + 1024 ≤ length img.now) × (1024 * q + 1024 ≤ length img.now) × (n % 2 ≡ 0) × (j + n / 2 ≤ 1024) × (k + n / 2 ≤ 1024) × (l ≡ end_of n (vol img.now q) k) }
    ensures { Decides result (stored n (vol img.now p) j ≡ stored n (vol img.now q) k) }
{
    let whole = l / 2;
    for i in 0..whole {
        if word_at(img, p, j + i) != word_at(img, q, k + i) {
            return false;
        }
    }
    n <= l || cut(word_at(img, p, j + whole)) == cut(word_at(img, q, k + whole))
}

// Whether the name in the n bytes from word k of page p on is s.
pub fn named_at(img: &[u16], p: usize, k: usize, n: usize, s: &[u8]) -> bool
    requires { (1024 * p + 1024 ≤ length img.now) × (n % 2 ≡ 0) × (k + n / 2 ≤ 1024) }
    ensures { Decides result (stored n (vol img.now p) k ≡ s.now) }
{
    let l = end_at(img, p, k, n);
    if l != s.len() {
        return false;
    }
    for (i, &b) in s.iter().enumerate() {
        if byte_at(img, p, k, i) != b {
            return false;
        }
    }
    true
}

// Byte i of s as it is written: an apostrophe at its end, and zeros after that.
fn written_byte(s: &[u8], i: usize) -> u8
    ensures { result ≡ get_or (s.now ++ (apostrophe ∷ [])) i 0 }
{
    if i < s.len() {
        return s[i];
    }
    if i == s.len() {
        return APOSTROPHE;
    }
    0
}

// Word i of s as it is written.
fn packed_word(s: &[u8], i: usize) -> u16
    requires { i < 1024 }
    ensures { result ≡ packed s.now i }
{
    u16::from_be_bytes([written_byte(s, 2 * i), written_byte(s, 2 * i + 1)])
}

// All words of a part become those of s as it is written.
fn pack(part: &mut [u16], s: &[u8])
    requires { length part.old ≤ 1024 }
    ensures { Begins (length part.old) part.new (packed s.now) }
{
    for (i, w) in part.iter_mut().enumerate() {
        *w = packed_word(s, i);
    }
}

// The n words from word k of page p on become those of s as it is written.
pub fn put_text(img: &mut [u16], p: usize, k: usize, n: usize, s: &[u8])
    requires { (1024 * p + 1024 ≤ length img.old) × (k + n ≤ 1024) }
    ensures { vol img.new ≡ put_words (vol img.old) p k n (packed s.now) }
{
    let a = WORDS * p + k;
    let z = a + n;
    pack(&mut img[a..z], s);
}
