// Writing a page of a file.
ghost use Rattle.std.specs.Prelude.{◌≡◌, ◌<◌};
ghost use Rattle.book.specs.Words.{vol};
ghost use Rattle.book.specs.Entries.{object, used, page_count};
ghost use Rattle.book.specs.Image.{DataArg, Ready};
ghost use Rattle.book.specs.Steps.{write_step};

use page::write::copy_page;
use tree::file::file_page;

// The page at position n of the file in object entry e becomes the 1,024 words of data.
pub fn write_step(img: &mut [u16], e: usize, n: usize, data: &[u16])
    requires { Ready img.old × (e < 65536) × (0 < used (object (vol img.old) e)) × (n < page_count (object (vol img.old) e)) × DataArg «data».now }
    ensures { vol img.new ≡ write_step (vol img.old) e n «data».now }
{
    let p = file_page(img, e, n);
    copy_page(img, p, data);
}
