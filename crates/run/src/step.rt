// The ten numbers of a step, and the parts of the text and of the words that they name.
ghost use Rattle.std.specs.Prelude.{◌≡◌, ◌+◌, ◌<◌, length, get_or};
ghost use Rattle.std.specs.Slice.{IsGetRangeResult};

// How many numbers a step has, and the place of each.
pub(crate) const LENGTH: usize = 10;

pub(crate) const CALL: usize = 0;

pub(crate) const USER: usize = 1;

pub(crate) const FILE: usize = 2;

pub(crate) const COUNT: usize = 3;

pub(crate) const CREATED: usize = 4;

pub(crate) const NAME: usize = 5;

pub(crate) const NAME_LENGTH: usize = 6;

pub(crate) const TYPE: usize = 7;

pub(crate) const TYPE_LENGTH: usize = 8;

pub(crate) const DATA: usize = 9;

// A number of a step.
pub(crate) fn number(step: &[u32], k: usize) -> usize
    requires { (length step.now ≡ 10) × (k < 10) }
    ensures { (result ≡ get_or step.now k 0) × (result < 4294967296) }
{
    step[k] as usize
}

// When a file was created, in 32 bits.
pub(crate) fn created(step: &[u32]) -> u32
    requires { length step.now ≡ 10 }
    ensures { result ≡ get_or step.now 4 0 }
{
    step[CREATED]
}

// The n from `at` on, where they lie in the list.
fn part<T>(list: &[T], at: usize, n: usize) -> Option<&[T]>
    requires { (at < 4294967296) × (n < 4294967296) }
    ensures { IsGetRangeResult list.now at (at + n) result }
{
    list.get(at..at + n)
}

// The name that a step tells, where it lies in the text.
pub(crate) fn name<'a>(step: &[u32], text: &'a [u8]) -> Option<&'a [u8]>
    requires { length step.now ≡ 10 }
    ensures { IsGetRangeResult text.now (get_or step.now 5 0) (get_or step.now 5 0 + get_or step.now 6 0) result }
{
    part(text, number(step, NAME), number(step, NAME_LENGTH))
}

// The type.
pub(crate) fn kind<'a>(step: &[u32], text: &'a [u8]) -> Option<&'a [u8]>
    requires { length step.now ≡ 10 }
    ensures { IsGetRangeResult text.now (get_or step.now 7 0) (get_or step.now 7 0 + get_or step.now 8 0) result }
{
    part(text, number(step, TYPE), number(step, TYPE_LENGTH))
}

// The words of a page.
pub(crate) fn page_words<'a>(step: &[u32], words: &'a [u16]) -> Option<&'a [u16]>
    requires { length step.now ≡ 10 }
    ensures { IsGetRangeResult words.now (get_or step.now 9 0) (get_or step.now 9 0 + 1024) result }
{
    part(words, number(step, DATA), page::WORDS)
}
