// A volume: its name, its used users' names, its used objects' names and types.
ghost use Rattle.std.specs.Prelude.{◌≡◌, ◌<◌};
ghost use Rattle.book.specs.Decides.{Decides};
ghost use Rattle.book.specs.Words.{vol};
ghost use Rattle.book.specs.Names.{ends};
ghost use Rattle.book.specs.Image.{Ready};
ghost use Rattle.book.specs.Convert.{AllFilled, convert};
ghost use Rattle.convert.specs.Kinds.{PastEnd};

use crate::all::{all_filled, refill_all};
use crate::field::{filled_at, refill_at};
use page::VOLUME;
use tree::root::object_ends;

const USERS: usize = 256;

// One more than the highest object entry that can be used: those of the pages that there are.
fn objects_end(img: &[u16]) -> usize
    requires { Ready img.now }
    ensures { PastEnd (vol img.now) result }
{
    32 * object_ends(img)
}

// Whether every short name and type has exactly this fill.
pub fn filled(img: &[u16], mark: u8) -> bool
    requires { Ready img.now }
    ensures { Decides result (AllFilled mark (vol img.now)) }
{
    if !filled_at(img, 0, VOLUME, 16, mark) {
        return false;
    }
    if !all_filled(img, false, USERS, mark) {
        return false;
    }
    all_filled(img, true, objects_end(img), mark)
}

// Every name and type gets this fill.
pub fn convert_step(img: &mut [u16], mark: u8)
    requires { Ready img.old × (0 < ends mark) }
    ensures { vol img.new ≡ convert mark (vol img.old) }
{
    refill_at(img, 0, VOLUME, 16, mark);
    refill_all(img, false, USERS, mark);
    let end = objects_end(img);
    refill_all(img, true, end, mark);
}
