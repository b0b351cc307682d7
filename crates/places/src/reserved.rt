// The places of rule 9: the words of the bit file.
ghost use Rattle.std.specs.Prelude.{◌≡◌, ◌+◌, ◌<◌};
ghost use Rattle.book.specs.Words.{vol};
ghost use Rattle.book.specs.Bits.{bit_page_of, bit_word};
ghost use Rattle.book.specs.Image.{pages, most_pages};
ghost use Rattle.book.specs.Spots.{at};
ghost use Rattle.places.specs.Found.{Finds, Reserved};
ghost use Rattle.book.specs.Places.{spots9};

use bits::PAGE_BITS;
use bits::marks::mark_of;
use book::Place;

// The word of page p's bit, where the bit file begins at page b.
fn bit_place(b: usize, p: usize) -> Place
    requires { (b < most_pages) × (p < most_pages) }
    ensures { result ≡ at (b + bit_page_of p) (bit_word p) }
{
    Place {
        page: (b + p / PAGE_BITS) as u32,
        word: (p % PAGE_BITS / 16) as u32,
    }
}

// The first place that breaks rule 9; the bit file begins at page b, and the marks are those of the held pages.
pub fn first9(img: &[u16], b: usize, marks: &[u16], total: usize) -> Option<Place>
    requires { Reserved img.now total b marks.now }
    ensures { Finds (spots9 (pages img.now) (vol img.now)) result }
{
    for p in 0..total {
        if bits::test(img, b, p) != mark_of(marks, p) {
            return Some(bit_place(b, p));
        }
    }
    None
}
