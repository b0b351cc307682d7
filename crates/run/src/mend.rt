// Salvage as a step: the changes are told as plain numbers, four each.
ghost use Rattle.std.specs.Prelude.{◌≡◌, ◌++◌, map, ◌*◌, ◌≤◌, length, take, drop};
ghost use Rattle.book.specs.Answers.{numbers};
ghost use Rattle.salvage.specs.Row.{unpacked};
ghost use Rattle.book.specs.Run.{flat, ChangesResult};

use crate::reply::four;
use book::Answer;
use salvage::list::told_at;
use salvage::mend;
use salvage::row::no_changes;

// How many numbers a change has.
const LENGTH: usize = 4;

// The list begins with the changes that the first n numbers of the row tell of; what is past them stays.
fn tell(list: &mut [u32], row: &[u64; 9311], n: usize)
    requires { (4 * n ≤ length list.old) × (n ≤ 9311) × (length row.now ≡ 9311) }
    ensures { list.new ≡ flat (map unpacked (take n row.now)) ++ drop (4 * n) list.old }
{
    for k in 0..n {
        let c = told_at(row, k);
        four(list, LENGTH * k, c.page, c.word, c.old, c.new);
    }
}

// How many changes an answer tells of.
fn told(a: Answer) -> usize
    ensures { result ≡ (numbers a).value }
{
    a.unwrap_or(0) as usize
}

// Salvages the volume, with room for as many changes as the list has fours.
pub(crate) fn make_salvage(img: &mut [u16], list: &mut [u32]) -> Answer
    ensures { ChangesResult img.old list.old (numbers result) img.new list.new }
{
    let room = list.len() / LENGTH;
    let mut row = no_changes();
    let a = mend(img, room, &mut row);
    tell(list, &row, told(a));
    a
}
