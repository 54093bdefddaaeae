ghost use Rattle.std.specs.Prelude.{◌≡◌, refl};
ghost use Rattle.graph.specs.Sets.{Least};
ghost use Rattle.dispatch.specs.Picks.{lowest, Picks};
ghost use Rattle.dispatch.specs.Right.{lowest_inside, lowest_empty};

use crate::policy::{NO_STEP, Policy};
use graph::StepSet;

// The lowest number first. It has one state for ever.
#[derive(Clone, Copy, PartialEq, Eq, Debug)]
pub struct Lowest;

impl Lowest {
    pub fn new() -> Lowest
        ensures { result ≡ record {} }
    {
        Lowest
    }
}

impl Policy for Lowest {
    ghost picked = { λ policy ready. lowest ready };

    ghost moved = { λ policy ready. policy };

    ghost inside = { λ policy ready n within inside. lowest_inside ready n within inside };

    ghost empty = { λ policy ready none. (lowest_empty ready none, refl) };

    fn pick(&mut self, ready: StepSet) -> u8
        ensures step { result ≡ lowest ready }
        ensures state { self.new ≡ self.old }
        ensures meaning { Picks ready (Least ready) (λ _. self.old) self.old result self.new }
    {
        ready.first().unwrap_or(NO_STEP)
    }
}
