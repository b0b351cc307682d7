// Who holds a page as a step.
ghost use Rattle.std.specs.Prelude.{◌≡◌};
ghost use Rattle.book.specs.Answers.{holding};
ghost use Rattle.book.specs.Calls.{who_call};
ghost use Rattle.book.specs.Enter.{Known};
ghost use Rattle.book.specs.Outcome.{Outcome};

use book::Holding;
use nord::ask;
use nord::enter::enter_page;

// Who holds page p. The gate is passed before the call, so that what the gate has on the stack and what the search has there are never there together.
pub(crate) fn make_who(img: &[u16], known: bool, p: usize) -> Holding
    requires { Known known img.now }
    ensures { Outcome (who_call img.now p) img.now (holding result) img.now }
{
    enter_page(img, known, p)?;
    ask::who_holds(img, true, p)
}
