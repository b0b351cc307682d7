// The places of rule 5: the blocks of the object file.
ghost use Rattle.std.specs.Prelude.{◌≡◌};
ghost use Rattle.book.specs.Words.{vol};
ghost use Rattle.book.specs.Pointers.{slot};
ghost use Rattle.book.specs.Entries.{user_file};
ghost use Rattle.book.specs.Image.{pages, Whole};
ghost use Rattle.book.specs.Rules.{Rule2, Rule3};
ghost use Rattle.book.specs.Spots.{AllHold, each};
ghost use Rattle.book.specs.Places.{May, pointers, spots5_by, spots5};
ghost use Rattle.tree.specs.Reach.{Reach};
ghost use Rattle.heads.specs.Slots.{Block};
ghost use Rattle.places.specs.Found.{Finds};

use crate::block::block;
use crate::master::master_place;
use book::Place;
use heads::objects::low_users;
use page::read::{pointer_at, slot_at};
use page::{INDEXED, OBJECTS, SUBINDEXED};

// The first place of an indexed object file: the master page's pointer where a user above 63 is used, else in index block t.
fn index_block(img: &[u16], total: usize, t: usize) -> Option<Place>
    requires { Block img.now total t × Reach img.now (user_file (vol img.now)) }
    ensures { Finds (spots5_by (pages img.now) (vol img.now) 1 t) result }
{
    if !low_users(img) {
        return Some(master_place(OBJECTS));
    }
    block(img, total, 0, 512, t)
}

// The first place of the four index blocks under subindex block t.
fn four_blocks(img: &[u16], total: usize, t: usize) -> Option<Place>
    requires { Block img.now total t × AllHold (pointers (vol img.now) t (May (pages img.now) 4)) }
    ensures { Finds (each 4 (λ i. pointers (vol img.now) (slot (vol img.now) t i) (May (pages img.now) 512))) result }
{
    for i in 0..4 {
        let b = slot_at(img, t, i);
        if let Some(place) = block(img, total, 0, 512, b) {
            return Some(place);
        }
    }
    None
}

// The first place of a subindexed object file: in subindex block t, then in the index blocks.
fn subindex_block(img: &[u16], total: usize, t: usize) -> Option<Place>
    requires { Block img.now total t }
    ensures { Finds (spots5_by (pages img.now) (vol img.now) 2 t) result }
{
    if let Some(place) = block(img, total, 0, 4, t) {
        return Some(place);
    }
    four_blocks(img, total, t)
}

// The first place that breaks rule 5.
pub fn first5(img: &[u16], total: usize) -> Option<Place>
    requires { Whole img.now × (total ≡ pages img.now) × Rule2 (pages img.now) (vol img.now) × Rule3 (pages img.now) (vol img.now) }
    ensures { Finds (spots5 (pages img.now) (vol img.now)) result }
{
    let pointer = pointer_at(img, 0, OBJECTS);
    if pointer.flags == INDEXED {
        return index_block(img, total, pointer.page);
    }
    if pointer.flags == SUBINDEXED {
        return subindex_block(img, total, pointer.page);
    }
    None
}
