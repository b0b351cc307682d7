// Many calls in one.
ghost use Rattle.book.specs.Run.{Ran};

// Makes the steps in order, each as its own call would, up to the first that is refused: one reply for each, and how many there are. The changes of a
// salvage are told in the list, four numbers each.
pub fn nord_run(
    img: &mut [u16],
    steps: &[u32],
    text: &[u8],
    words: &[u16],
    list: &mut [u32],
    out: &mut [u32],
) -> usize
    ensures { Ran steps.now text.now words.now img.old list.old out.old result img.new list.new out.new }
{
    run::run(img, steps, text, words, list, out)
}
