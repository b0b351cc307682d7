// Salvage: the image and the list of changes are lent.
ghost use Rattle.edge.specs.Salvages.{Salvages};

use book::Change;
use edge::spell::Reply;

// Makes bits, used counts and unreserved anew from what the pointers hold: each changed word in the list, in ascending place, and their number as the
// value.
#[unsafe(no_mangle)]
pub extern "C" fn nord_salvage(img: &mut [u16], list: &mut [Change]) -> Reply
    ensures { Salvages img.old list.old result img.new list.new }
{
    edge::mend::nord_salvage(img, list)
}
