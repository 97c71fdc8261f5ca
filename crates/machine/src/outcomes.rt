//! Decisions that accept an act: with a change, with none since it is done already, or with an answer alone.
ghost use Rattle.std.specs.Prelude.{◌≡◌, None};
ghost use Rattle.machine.specs.Inner.Decisions.{changing};
ghost use Rattle.machine.specs.declared.acts.Answer.TheVariants.{Done};
ghost use Rattle.machine.specs.declared.acts.Decision.TheVariants.{Accepted};

use crate::acts::{Answer, Change, Decision, Edit};
use basis::Number;

pub(crate) fn accept(answer: Answer, edit: Edit, start: Option<Number>) -> Decision
    ensures { result ≡ changing answer edit start }
{
    Decision::Accepted {
        answer,
        change: Some(Change { edit, start }),
    }
}

// The act was done before: nothing changes.
pub(crate) fn accept_again() -> Decision
    ensures { result ≡ Accepted Done None }
{
    Decision::Accepted {
        answer: Answer::Done,
        change: None,
    }
}

// A read-only answer: nothing changes.
pub(crate) fn answer_only(answer: Answer) -> Decision
    ensures { result ≡ Accepted answer None }
{
    Decision::Accepted {
        answer,
        change: None,
    }
}
