// The places of rule 8: the lowest page that two hold.
ghost use Rattle.std.specs.Prelude.{◌≡◌, ◌*◌, ◌≤◌, ◌<◌};
ghost use Rattle.sums.specs.Sum.{sum};
ghost use Rattle.book.specs.Words.{vol};
ghost use Rattle.book.specs.Trees.{weigh_r};
ghost use Rattle.book.specs.Files.{file_at};
ghost use Rattle.book.specs.Holders.{hit, system, all};
ghost use Rattle.book.specs.Image.{pages};
ghost use Rattle.tree.specs.Ends.{Ends};
ghost use Rattle.walk.specs.Held.{Volume};
ghost use Rattle.places.specs.Low.{Meeting, Unopened, Meets₂};
ghost use Rattle.places.specs.Found.{Finds};
ghost use Rattle.book.specs.Places.{spots8};

use crate::meet::{meet_root, meet_run};
use bits::bit_pages;
use bits::marks::{mark, most_marks};
use book::Place;
use page::entry::{PAGES, POINTER};
use page::read::{page_at, pointer_at};
use page::{BITS, OBJECTS, USERS};
use tree::entry::{entry_pointer, entry_two, entry_used};
use tree::root::object_page;

// No block was opened.
fn none_opened() -> [u16; 17592]
    ensures { Unopened result }
{
    [0; 17592]
}

// Meets the pages of the file in object entry e; an unused entry has none.
fn meet_file(
    img: &[u16],
    marks: &mut [u16; 8796],
    ones: &mut [u16; 17592],
    twos: &mut [u16; 17592],
    lowest: usize,
    e: usize,
) -> usize
    requires { Meeting img.now marks.old ones.old twos.old lowest × (e < 65536) }
    ensures { Meets₂ (pages img.now) (vol img.now) marks.old ones.old twos.old lowest (λ p. weigh_r (vol img.now) (file_at (vol img.now) e) (hit p)) marks.new ones.new twos.new result }
{
    let q = object_page(img, e);
    if !entry_used(img, q, e) {
        return lowest;
    }
    let pointer = entry_pointer(img, q, e, POINTER);
    let count = entry_two(img, q, e, PAGES) as usize;
    meet_root(img, marks, ones, twos, lowest, pointer, count)
}

// Meets the pages of the files in object entries 0 to end - 1.
fn meet_files(
    img: &[u16],
    marks: &mut [u16; 8796],
    ones: &mut [u16; 17592],
    twos: &mut [u16; 17592],
    lowest: usize,
    end: usize,
) -> usize
    requires { Meeting img.now marks.old ones.old twos.old lowest × (end ≤ 65536) }
    ensures { Meets₂ (pages img.now) (vol img.now) marks.old ones.old twos.old lowest (λ p. sum end (λ e. weigh_r (vol img.now) (file_at (vol img.now) e) (hit p))) marks.new ones.new twos.new result }
{
    let mut low = lowest;
    for e in 0..end {
        low = meet_file(img, marks, ones, twos, low, e);
    }
    low
}

// Meets the pages of the bit file, the user file and the object file.
fn meet_system(
    img: &[u16],
    marks: &mut [u16; 8796],
    ones: &mut [u16; 17592],
    twos: &mut [u16; 17592],
    lowest: usize,
    total: usize,
) -> usize
    requires { Meeting img.now marks.old ones.old twos.old lowest × (total ≡ pages img.now) }
    ensures { Meets₂ (pages img.now) (vol img.now) marks.old ones.old twos.old lowest (λ p. system (pages img.now) (vol img.now) (hit p)) marks.new ones.new twos.new result }
{
    let start = page_at(img, 0, BITS) as usize;
    let low = meet_run(marks, lowest, start, bit_pages(total));
    let users = pointer_at(img, 0, USERS);
    let next = meet_root(img, marks, ones, twos, low, users, 0);
    let objects = pointer_at(img, 0, OBJECTS);
    meet_root(img, marks, ones, twos, next, objects, 0)
}

// Meets every page that is held but the master page. The object file ends at position `ends`.
fn meet_all(
    img: &[u16],
    marks: &mut [u16; 8796],
    ones: &mut [u16; 17592],
    twos: &mut [u16; 17592],
    total: usize,
    ends: usize,
) -> usize
    requires { Meeting img.now marks.old ones.old twos.old total × (total ≡ pages img.now) × Ends img.now ends }
    ensures { Meets₂ (pages img.now) (vol img.now) marks.old ones.old twos.old total (λ p. all (pages img.now) (vol img.now) (hit p)) marks.new ones.new twos.new result }
{
    let low = meet_system(img, marks, ones, twos, total, total);
    meet_files(img, marks, ones, twos, low, 32 * ends)
}

// The first place that breaks rule 8: word 0 of the lowest page that two hold. The object file ends at position `ends`.
pub fn first8(img: &[u16], total: usize, ends: usize) -> Option<Place>
    requires { Volume img.now × (total ≡ pages img.now) × Ends img.now ends }
    ensures { Finds (spots8 (pages img.now) (vol img.now)) result }
{
    let mut marks = most_marks();
    let mut ones = none_opened();
    let mut twos = none_opened();
    mark(&mut marks, 0);
    let low = meet_all(img, &mut marks, &mut ones, &mut twos, total, ends);
    if total <= low {
        return None;
    }
    Some(Place {
        page: low as u32,
        word: 0,
    })
}
