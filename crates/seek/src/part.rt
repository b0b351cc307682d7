// Reading a page: its part of the image, or an empty part.
ghost use Rattle.std.specs.Prelude.{◌≡◌, [], ◌<◌};
ghost use Rattle.book.specs.Image.{pages};
ghost use Rattle.book.specs.Calls.{part_at};

use page::WORDS;

// The 1,024 words of page p.
pub fn page_part(img: &[u16], p: usize) -> &[u16]
    requires { p < pages img.now }
    ensures { result.now ≡ part_at img.now p }
{
    let a = WORDS * p;
    let z = a + WORDS;
    &img[a..z]
}

// A part of no words.
pub fn empty(img: &[u16]) -> &[u16]
    ensures { result.now ≡ [] }
{
    &img[..0]
}
