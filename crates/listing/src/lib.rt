// The listing of an image, as bytes in a lent buffer.
#![tactic(auto)]

mod lines;
mod name;
mod order;
mod put;
mod refusal;

ghost use Rattle.book.specs.Listing.{Reported};

// Writes the text for the image as far as the buffer reaches, and gives the whole length of the text.
pub fn list(img: &[u16], out: &mut [u8]) -> usize
    ensures { Reported img.now out.old out.new result }
{
    match sound::gate(img, true) {
        Ok(_) => order::put_listing(img, out),
        Err(why) => refusal::put_refusal(out, why),
    }
}
