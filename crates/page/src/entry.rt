// Where an entry lies in its file: 32 words, 32 to a page, for users and objects alike.
ghost use Rattle.std.specs.Prelude.{◌≡◌, ◌+◌, ◌*◌, ◌≤◌, length};
ghost use Rattle.book.specs.Words.{vol, put_words, zeros};
ghost use Rattle.book.specs.Entries.{entry_page, entry_word};

use crate::write::zero_at;

// Where the words of an entry stand. Every entry has a name.
pub const NAME: usize = 1;

// A user's: given pages, used pages, own index.
pub const GIVEN: usize = 14;

pub const USED: usize = 16;

pub const INDEX: usize = 18;

// A file's: type, owner, own entry number, total opens, created, pages, bytes, pointer.
pub const TYPE: usize = 9;

pub const OWNER: usize = 16;

pub const NUMBER: usize = 17;

pub const OPENS: usize = 19;

pub const CREATED: usize = 20;

pub const PAGES: usize = 26;

pub const BYTES: usize = 28;

pub const POINTER: usize = 30;

// The bytes of a file's page.
pub const PAGE_BYTES: u32 = 2048;

// The page of an entry, counted in its file, and its first word there.
#[derive(Clone, Copy)]
pub struct EntryPlace {
    pub page: usize,
    pub word: usize,
}

impl EntryPlace {
    pub const WORDS: usize = 32;

    pub const PER_PAGE: usize = 32;

    // The place of entry n.
    pub fn of(n: usize) -> Self
        ensures { (result.page ≡ entry_page n) × (result.word ≡ entry_word n) }
    {
        Self {
            page: n / Self::PER_PAGE,
            word: Self::WORDS * (n % Self::PER_PAGE),
        }
    }
}

// The entry at word k of page p becomes zeros.
pub fn clear_entry(img: &mut [u16], p: usize, k: usize)
    requires { (1024 * p + 1024 ≤ length img.old) × (k + 32 ≤ 1024) }
    ensures { vol img.new ≡ put_words (vol img.old) p k 32 zeros }
{
    zero_at(img, p, k, EntryPlace::WORDS);
}
