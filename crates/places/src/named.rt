// The name of an entry: legal, and no lower entry has it. Rules 4 and 6.
ghost use Rattle.std.specs.Prelude.{◌≤◌, ◌<◌};
ghost use Rattle.book.specs.Decides.{Decides};
ghost use Rattle.book.specs.Entries.{entry, used};
ghost use Rattle.book.specs.Image.{pages};
ghost use Rattle.book.specs.Names.{LegalName};
ghost use Rattle.book.specs.Trees.{root_by};
ghost use Rattle.book.specs.Words.{vol};
ghost use Rattle.heads.specs.Twins.{TypeBytes, Fresh, On};

use heads::stored::entry_legal;
use heads::twins::fresh;
use page::entry::NAME;
use page::read::Pointer;

// Whether the name of the used entry y, which is on page q of the file with these flags and top page, is legal, and none from `base` on before it has the same name and, in n bytes, the same type.
pub(crate) fn name_ok(
    img: &[u16],
    pointer: Pointer,
    n: usize,
    base: usize,
    q: usize,
    y: usize,
) -> bool
    requires { On img.now (root_by pointer.flags pointer.page 0) q y × (q < pages img.now) × (0 < used (entry (vol img.now) (root_by pointer.flags pointer.page 0) y)) × TypeBytes n × (base ≤ y) }
    ensures { Decides result (LegalName (entry (vol img.now) (root_by pointer.flags pointer.page 0) y) 1 × Fresh (entry (vol img.now) (root_by pointer.flags pointer.page 0)) n base y) }
{
    entry_legal(img, q, y, NAME, 1, 16) && fresh(img, pointer, n, base, q, y)
}
