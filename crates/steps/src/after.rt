// The control after a step, and what the step answers.
ghost use Rattle.std.specs.Prelude.{◌≡◌};

use record::record::Control;
use refusal::Refusal;

#[derive(Clone, Copy)]
pub struct After<A> {
    pub control: Control,
    pub answer: A,
}

impl<A> After<A> {
    // The control is renewed: see `record::record::renewed`.
    pub fn new(control: Control, answer: A) -> After<A>
        ensures { result ≡ record { control = control; answer = answer } }
    {
        After {
            control: record::record::renewed(control),
            answer,
        }
    }
}
