// Rules 1 to 7, which ask nothing of bits and counts but rule 4's comparison of used with given.
ghost use Rattle.std.specs.Prelude.{◌≡◌};
ghost use Rattle.book.specs.Image.{Whole};
ghost use Rattle.sound.specs.Late.{JudgedEarly};

use book::BrokenRule;

// Judges an image of whole pages by rules 1 to 7: the lowest broken one, or where the object file ends. `ten` tells whether all ten rules are asked, and so
// the comparison in rule 4.
pub fn early(img: &[u16], ten: bool) -> Result<usize, BrokenRule>
    requires { Whole img.now }
    ensures { JudgedEarly img.now ten result }
{
    let total = img.len() / page::WORDS;
    if !heads::master::rule1(img, total) {
        return Err(BrokenRule { rule: 1 });
    }
    if !heads::master::rule2(img, total) {
        return Err(BrokenRule { rule: 2 });
    }
    if !heads::master::rule3(img, total) {
        return Err(BrokenRule { rule: 3 });
    }
    let mut table = heads::stamps::room();
    if !heads::users::rule4(img, ten, &mut table) {
        return Err(BrokenRule { rule: 4 });
    }
    if !heads::objects::rule5(img, total) {
        return Err(BrokenRule { rule: 5 });
    }
    let ends = tree::root::object_ends(img);
    if !heads::objects::rule6(img, &mut table, ends) {
        return Err(BrokenRule { rule: 6 });
    }
    if !shape::rule7::rule7(img, total, ends) {
        return Err(BrokenRule { rule: 7 });
    }
    Ok(ends)
}
