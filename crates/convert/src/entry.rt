// Entry n on page q: its name and, if it is a file's, its type.
ghost use Rattle.std.specs.Prelude.{◌≡◌, ◌<◌};
ghost use Rattle.book.specs.Decides.{Decides};
ghost use Rattle.book.specs.Words.{vol};
ghost use Rattle.book.specs.Entries.{put_entry};
ghost use Rattle.book.specs.Image.{pages};
ghost use Rattle.tree.specs.Reach.{entry_in};
ghost use Rattle.convert.specs.Kinds.{FilledEntry, refilled_entry};

use crate::field::{filled_at, refill_at};
use page::entry::{EntryPlace, NAME, TYPE};

// Whether both have exactly this fill.
pub fn entry_filled(img: &[u16], q: usize, n: usize, typed: bool, mark: u8) -> bool
    requires { (0 < q) × (q < pages img.now) }
    ensures { Decides result (FilledEntry typed mark (entry_in (vol img.now) q n)) }
{
    let w = EntryPlace::of(n).word;
    filled_at(img, q, w + NAME, 16, mark) && (!typed || filled_at(img, q, w + TYPE, 4, mark))
}

// Both get this fill.
pub fn refill_entry(img: &mut [u16], q: usize, n: usize, typed: bool, mark: u8)
    requires { (0 < q) × (q < pages img.old) }
    ensures { vol img.new ≡ put_entry (vol img.old) q n (refilled_entry typed mark (entry_in (vol img.old) q n)) }
{
    let w = EntryPlace::of(n).word;
    refill_at(img, q, w + NAME, 16, mark);
    if !typed {
        return;
    }
    refill_at(img, q, w + TYPE, 4, mark);
}
