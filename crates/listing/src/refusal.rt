// The line of a refusal.
ghost use Rattle.book.specs.Answers.{number_of, broken_of};
ghost use Rattle.book.specs.Listing.{refused_line};
ghost use Rattle.listing.specs.Wrote.{Wrote};

use crate::put::{put_bytes, put_field};
use book::Refusal;
use sound::numbers::number_of;

// Why there is no listing: the number, and for an unsound image the rule, at the front of the buffer.
pub fn put_refusal(out: &mut [u8], why: Refusal) -> usize
    ensures { Wrote (refused_line (number_of why) (broken_of why).rule) out.old 0 out.new result }
{
    let z = put_field(out, 0, b"REFUSED ", number_of(why) as usize);
    match why {
        Refusal::Unsound { broken } => {
            let e = put_field(out, z, b" RULE ", broken.rule as usize);
            put_bytes(out, e, b"\n")
        }
        _ => put_bytes(out, z, b"\n"),
    }
}
