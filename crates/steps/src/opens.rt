// Noting an open: total opens is one word, and after 65,535 comes 0.
ghost use Rattle.std.specs.Prelude.{◌≡◌, ◌<◌};
ghost use Rattle.book.specs.Words.{vol};
ghost use Rattle.book.specs.Entries.{object, used};
ghost use Rattle.book.specs.Image.{Ready};
ghost use Rattle.book.specs.Steps.{open_step};

use page::entry::{EntryPlace, OPENS};
use page::write::put_word;
use tree::entry::entry_word;
use tree::root::object_page;

// Total opens of object entry e grows by one.
pub fn open_step(img: &mut [u16], e: usize)
    requires { Ready img.old × (e < 65536) × (0 < used (object (vol img.old) e)) }
    ensures { vol img.new ≡ open_step (vol img.old) e }
{
    let q = object_page(img, e);
    let opens = entry_word(img, q, e, OPENS);
    let k = EntryPlace::of(e).word;
    put_word(img, q, k + OPENS, opens.wrapping_add(1));
}
