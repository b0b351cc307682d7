// The first holder of page p from turn x on, over all kinds: 2 the bit file, 3 and 4 the user file, 5 to 7 the object file, 8 to 10 the files.
ghost use Rattle.std.specs.Prelude.{◌≡◌, ℕ, ◌*◌, ◌≤◌, ◌<◌};
ghost use Rattle.book.specs.Words.{vol};
ghost use Rattle.book.specs.Trees.{upto, page_at, index_at, root_at};
ghost use Rattle.book.specs.Bits.{bit_file};
ghost use Rattle.book.specs.Entries.{user_file};
ghost use Rattle.book.specs.Image.{pages};
ghost use Rattle.tree.specs.Reach.{Reach};
ghost use Rattle.tree.specs.Ends.{Ends};
ghost use Rattle.walk.specs.Short.{ShortR};
ghost use Rattle.walk.specs.Held.{Volume};
ghost use Rattle.who.specs.Least.{Least};
ghost use Rattle.who.specs.Turns.{positions, turns, class_page, kind_page, turn_page};
ghost use Rattle.who.specs.Search.{Search};

use crate::files::files_from;
use crate::roots::{class_from, run_from};
use crate::{POSITIONS, TURNS};
use bits::marks::{few_marks, most_marks};
use bits::{PAGE_BITS, bit_pages};
use page::read::{Pointer, flags_at, page_at};
use page::{BITS, OBJECT_PAGES, OBJECTS, USERS, WORDS};

// From position n on in the bit file.
fn bits_from(img: &[u16], n: usize, p: usize) -> Option<usize>
    requires { Volume img.now × (0 < p) × (n ≤ positions) }
    ensures { Least (λ (k : ℕ). page_at (vol img.now) (bit_file (pages img.now) (vol img.now)) k ≡ p) n positions result }
{
    let start = page_at(img, 0, BITS) as usize;
    let count = bit_pages(img.len() / WORDS);
    run_from(start, count, n, p)
}

// From position n on in a class of the file whose pointer is at word k of the master page, and which has no positions from count on.
fn master_from(
    img: &[u16],
    seen: &mut [u16],
    tops: &mut [u16],
    k: usize,
    count: usize,
    class: usize,
    n: usize,
    p: usize,
) -> Option<usize>
    requires { Search img.now p seen.old tops.old × (class < 3) × (k < 1023) × Reach img.now (root_at (vol img.now 0) k 0) × ShortR (vol img.now) (root_at (vol img.now 0) k 0) count × (n ≤ positions) }
    ensures { Least (λ (i : ℕ). class_page (vol img.now) (root_at (vol img.now 0) k 0) class i ≡ p) n positions result × Search img.now p seen.new tops.new }
{
    let flags = flags_at(img, 0, k);
    if flags == 0 {
        return None;
    }
    let top = page_at(img, 0, k) as usize;
    class_from(
        img,
        seen,
        tops,
        class,
        Pointer { flags, page: top },
        count,
        n,
        p,
    )
}

// The user file's index block, which is at position 0.
fn user_index_from(
    img: &[u16],
    seen: &mut [u16],
    tops: &mut [u16],
    n: usize,
    p: usize,
) -> Option<usize>
    requires { Search img.now p seen.old tops.old × Volume img.now × (n ≤ positions) }
    ensures { Least (λ (i : ℕ). upto i 1 (index_at (vol img.now) (user_file (vol img.now)) 0) ≡ p) n positions result × Search img.now p seen.new tops.new }
{
    if 0 < n {
        return None;
    }
    let k = master_from(img, seen, tops, USERS, 8, 1, 0, p)?;
    if k == 0 {
        return Some(0);
    }
    None
}

// From position n on in one kind of system pages.
fn system_from(
    img: &[u16],
    seen: &mut [u16],
    tops: &mut [u16],
    kind: usize,
    n: usize,
    p: usize,
) -> Option<usize>
    requires { Search img.now p seen.old tops.old × Volume img.now × (kind < 8) × (n ≤ positions) }
    ensures { Least (λ (i : ℕ). kind_page (pages img.now) (vol img.now) kind i ≡ p) n positions result × Search img.now p seen.new tops.new }
{
    if kind < 2 {
        return None;
    }
    if kind == 2 {
        return bits_from(img, n, p);
    }
    if kind == 3 {
        return user_index_from(img, seen, tops, n, p);
    }
    if kind == 4 {
        return master_from(img, seen, tops, USERS, 8, 2, n, p);
    }
    master_from(img, seen, tops, OBJECTS, OBJECT_PAGES, kind - 5, n, p)
}

// From turn x of a kind on.
fn kind_from(
    img: &[u16],
    seen: &mut [u16],
    tops: &mut [u16],
    ends: usize,
    kind: usize,
    x: usize,
    p: usize,
) -> Option<usize>
    requires { Search img.now p seen.old tops.old × Volume img.now × Ends img.now ends × (kind < 11) × (x ≤ turns) }
    ensures { Least (λ (y : ℕ). kind_page (pages img.now) (vol img.now) kind y ≡ p) x turns result × Search img.now p seen.new tops.new }
{
    if 7 < kind {
        return files_from(img, seen, tops, ends, kind - 8, x, p);
    }
    if POSITIONS < x {
        return None;
    }
    system_from(img, seen, tops, kind, x, p)
}

// From turn x on, in kinds below `kinds`, one after the other.
fn kinds_from(
    img: &[u16],
    seen: &mut [u16],
    tops: &mut [u16],
    ends: usize,
    x: usize,
    kinds: usize,
    p: usize,
) -> Option<usize>
    requires { Search img.now p seen.old tops.old × Volume img.now × Ends img.now ends × (x ≤ turns * kinds) × (kinds ≤ 11) }
    ensures { Least (λ (y : ℕ). turn_page (pages img.now) (vol img.now) y ≡ p) x (turns * kinds) result }
{
    let mut from = x % TURNS;
    for kind in x / TURNS..kinds {
        if let Some(y) = kind_from(img, seen, tops, ends, kind, from, p) {
            return Some(TURNS * kind + y);
        }
        from = 0;
    }
    None
}

// The same; here the marks are made, as many as the volume asks for.
pub fn turn_from(img: &[u16], ends: usize, x: usize, kinds: usize, p: usize) -> Option<usize>
    requires { Volume img.now × Ends img.now ends × (0 < p) × (x ≤ turns * kinds) × (kinds ≤ 11) }
    ensures { Least (λ (y : ℕ). turn_page (pages img.now) (vol img.now) y ≡ p) x (turns * kinds) result }
{
    if img.len() / WORDS <= PAGE_BITS {
        let mut seen = few_marks();
        let mut tops = few_marks();
        return kinds_from(img, &mut seen, &mut tops, ends, x, kinds, p);
    }
    let mut seen = most_marks();
    let mut tops = most_marks();
    kinds_from(img, &mut seen, &mut tops, ends, x, kinds, p)
}
