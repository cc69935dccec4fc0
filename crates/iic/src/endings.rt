// How steps end.
ghost use Rattle.std.specs.Prelude.{◌≡◌};
ghost use Rattle.iic.specs.Answers.{Stepped, and_then, answered, fine, refused};
ghost use Rattle.iic.specs.Inside.{went_on};
ghost use Rattle.iic.specs.declared.Iic.{Iic};

use super::{Answered, Iic, Stepped};
use refusals::Refusal;

impl Iic {
    pub(crate) fn fine(self) -> Stepped
        ensures { result ≡ fine self }
    {
        Answered {
            answer: Ok(()),
            state: self,
        }
    }

    pub(crate) fn refused(self, refusal: Refusal) -> Stepped
        ensures { result ≡ refused refusal self }
    {
        Answered {
            answer: Err(refusal),
            state: self,
        }
    }
}

impl Answered<()> {
    // Whether the next step is taken.
    pub(crate) fn went_on(self) -> bool
        ensures { result ≡ went_on self.answer }
    {
        self.answer.is_ok()
    }

    // The next step, where this one went through: the Rust's `?`.
    pub(crate) fn and_then<F: FnOnce(Iic) -> Stepped>(mut self, step: F) -> Stepped
        requires { F.IsAlwaysCallable step }
        ensures { (f : Iic → Stepped) → ((s : Iic) (r : Stepped) → F.post step s r → r ≡ f s) → result ≡ and_then self f }
    {
        if self.answer.is_ok() {
            self = step(self.state);
        }
        self
    }

    // A call's answer where its step went through.
    pub(crate) fn answering<A: Copy>(self, value: A) -> Answered<A>
        ensures { result ≡ answered self value }
    {
        Answered {
            answer: self.answer.map(|_| value),
            state: self.state,
        }
    }
}
