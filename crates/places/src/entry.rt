// The place of an entry's word.
ghost use Rattle.std.specs.Prelude.{◌≡◌, ◌+◌, ◌<◌};
ghost use Rattle.book.specs.Entries.{entry_word};
ghost use Rattle.book.specs.Spots.{at};

use book::Place;
use page::entry::EntryPlace;

// Word k of entry n, which is on page q.
pub(crate) fn place_of(q: usize, n: usize, k: usize) -> Place
    requires { (q < 1048576) × (k < 32) }
    ensures { result ≡ at q (entry_word n + k) }
{
    let first = EntryPlace::of(n);
    let w = first.word;
    Place {
        page: q as u32,
        word: (w + k) as u32,
    }
}
