// The places of rule 7: the files, page by page of the object file. Blocks may be shared before rule 8 is judged, so the tests remember which of them are right.
ghost use Rattle.std.specs.Prelude.{◌≡◌, ◌+◌, ◌*◌, ◌<◌};
ghost use Rattle.book.specs.Image.{pages, Whole};
ghost use Rattle.book.specs.Places.{spots7};
ghost use Rattle.book.specs.Rules.{Rule2, Rule5};
ghost use Rattle.book.specs.Spots.{each};
ghost use Rattle.book.specs.Words.{vol};
ghost use Rattle.tree.specs.Ends.{Ends};
ghost use Rattle.places.specs.Found.{Finds};
ghost use Rattle.places.specs.Rows.{FilesOn, file_row};

use crate::file::file;
use bits::marks::most_marks;
use book::Place;
use page::OBJECTS;
use page::read::pointer_at;
use shape::file::entry_ok;
use shape::rule7::position_ok;
use tree::root::root_page;

// The first place of the 32 files whose entries are on object page q, the one at position n.
fn page_files(img: &[u16], total: usize, q: usize, n: usize) -> Option<Place>
    requires { FilesOn img.now total q n }
    ensures { Finds (each 32 (λ k. file_row (pages img.now) (vol img.now) (32 * n + k))) result }
{
    let e = 32 * n;
    let mut seen = most_marks();
    let mut trees = most_marks();
    for k in 0..32 {
        if !entry_ok(img, total, &mut seen, &mut trees, q, e + k) {
            return file(img, total, q, e + k);
        }
    }
    None
}

// The first place that breaks rule 7, where the object file ends at `ends`.
pub fn first7(img: &[u16], total: usize, ends: usize) -> Option<Place>
    requires { Whole img.now × (total ≡ pages img.now) × Rule2 (pages img.now) (vol img.now) × Rule5 (pages img.now) (vol img.now) × Ends img.now ends }
    ensures { Finds (spots7 (pages img.now) (vol img.now)) result }
{
    let pointer = pointer_at(img, 0, OBJECTS);
    let mut seen = most_marks();
    let mut trees = most_marks();
    for n in 0..ends {
        if !position_ok(img, total, &mut seen, &mut trees, pointer, n) {
            let q = root_page(img, pointer, 0, n);
            return page_files(img, total, q, n);
        }
    }
    None
}
