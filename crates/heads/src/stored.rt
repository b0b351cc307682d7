// Names and types of entries on pages that are there.
ghost use Rattle.std.specs.Prelude.{◌≡◌, ◌+◌, ◌/◌, ◌%◌, ◌≤◌, ◌<◌};
ghost use Rattle.book.specs.Words.{vol};
ghost use Rattle.book.specs.Names.{Text, end_of, stored};
ghost use Rattle.book.specs.Image.{pages};
ghost use Rattle.book.specs.Decides.{Decides};
ghost use Rattle.tree.specs.Reach.{entry_in};
ghost use Rattle.heads.specs.Twins.{TypeBytes, EndsAt, SameTitle};

use page::entry::{EntryPlace, NAME, TYPE};
use page::names::{end_at, legal_at, same_at};

// Whether the name in the n bytes from word k of entry e on page q is m or more letters.
pub fn entry_legal(img: &[u16], q: usize, e: usize, k: usize, m: usize, n: usize) -> bool
    requires { (0 < q) × (q < pages img.now) × (n % 2 ≡ 0) × (k + n / 2 ≤ 32) }
    ensures { Decides result (Text m n (stored n (entry_in (vol img.now) q e) k)) }
{
    let w = EntryPlace::of(e).word;
    legal_at(img, q, w + k, m, n)
}

// Where the name in the n bytes from word k of entry e on page q ends.
pub(crate) fn entry_end(img: &[u16], q: usize, e: usize, k: usize, n: usize) -> usize
    requires { (0 < q) × (q < pages img.now) × (n % 2 ≡ 0) × (k + n / 2 ≤ 32) }
    ensures { result ≡ end_of n (entry_in (vol img.now) q e) k }
{
    let w = EntryPlace::of(e).word;
    end_at(img, q, w + k, n)
}

// Whether entry a on page p has the name of entry b on page q and, in n bytes, its type; those of b end at bytes l and m.
pub(crate) fn entry_same(
    img: &[u16],
    p: usize,
    a: usize,
    q: usize,
    b: usize,
    n: usize,
    l: usize,
    m: usize,
) -> bool
    requires { (0 < p) × (p < pages img.now) × (0 < q) × (q < pages img.now) × TypeBytes n × EndsAt (entry_in (vol img.now) q b) n l m }
    ensures { Decides result (SameTitle n (entry_in (vol img.now) p a) (entry_in (vol img.now) q b)) }
{
    let j = EntryPlace::of(a).word;
    let k = EntryPlace::of(b).word;
    same_at(img, p, j + NAME, q, k + NAME, 16, l) && same_at(img, p, j + TYPE, q, k + TYPE, n, m)
}
