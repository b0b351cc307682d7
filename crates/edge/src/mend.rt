// Salvage for C: the image and the list of changes are lent. All numbers are computed in crate salvage; only here and in its `fill` is the list held.
ghost use Rattle.std.specs.Prelude.{◌≡◌, length};
ghost use Rattle.salvage.specs.Row.{row_size};
ghost use Rattle.edge.specs.Salvages.{Mended, Salvages};

use crate::spell::Reply;
use book::Change;
use salvage::list::fill;
use salvage::row::no_changes;

// Salvages the volume; the row begins with the changes, as many as the reply's value says.
pub fn mended(img: &mut [u16], room: usize, row: &mut [u64; 9311]) -> Reply
    requires { length row.old ≡ row_size }
    ensures { Mended img.old room result img.new row.new }
{
    Reply::from(salvage::mend(img, room, row))
}

// How many changes a reply tells of.
fn told(r: Reply) -> usize
    ensures { result ≡ r.value }
{
    r.value as usize
}

// Makes bits, used counts and unreserved anew from what the pointers hold: each changed word in the list, in ascending place, and their number as the
// value.
pub fn nord_salvage(img: &mut [u16], list: &mut [Change]) -> Reply
    ensures { Salvages img.old list.old result img.new list.new }
{
    let room = list.len();
    let mut row = no_changes();
    let r = mended(img, room, &mut row);
    fill(list, &row, told(r));
    r
}
