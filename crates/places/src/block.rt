// The pointers of a block: rules 3, 5 and 7.
ghost use Rattle.std.specs.Prelude.{◌≡◌, ◌*◌, ◌<◌};
ghost use Rattle.book.specs.Words.{vol};
ghost use Rattle.book.specs.Image.{pages};
ghost use Rattle.book.specs.Decides.{Decides};
ghost use Rattle.heads.specs.Slots.{Block};
ghost use Rattle.book.specs.Spots.{at};
ghost use Rattle.places.specs.Found.{Finds};
ghost use Rattle.book.specs.Places.{Filled, pointers};

use book::Place;
use page::read::slot_at;

// Pointer s of block b.
fn slot_place(b: usize, s: usize) -> Place
    requires { (b < 1048576) × (s < 512) }
    ensures { result ≡ at b (2 * s) }
{
    Place {
        page: b as u32,
        word: (2 * s) as u32,
    }
}

// Whether pointer x in slot s is in least..total-1 before slot m, and zero from there on.
fn filled(total: usize, least: usize, m: usize, s: usize, x: usize) -> bool
    ensures { Decides result (Filled total least m s x) }
{
    if total <= x {
        return false;
    }
    if s < m {
        return least <= x;
    }
    x == 0
}

// The first of the 512 pointers of block b that is not so.
pub(crate) fn block(img: &[u16], total: usize, least: usize, m: usize, b: usize) -> Option<Place>
    requires { Block img.now total b }
    ensures { Finds (pointers (vol img.now) b (Filled (pages img.now) least m)) result }
{
    for s in 0..512 {
        let x = slot_at(img, b, s);
        if !filled(total, least, m, s, x) {
            return Some(slot_place(b, s));
        }
    }
    None
}
