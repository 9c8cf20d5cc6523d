ghost use Rattle.std.specs.Prelude.{◌≡◌, ◌≤◌, ◌<◌, ◌++◌, ◌∷◌, [], IsSome, length};
ghost use Rattle.tk_pod.specs.Walk.{broken as first_broken, next_step, passes_at as passes_with, walked as walked_so, IsWalk};

use std::marker::Model;

/// How a walk ended.
#[derive(Clone, Copy, Debug, PartialEq, Eq)]
pub enum Walked {
    /// Every step ended and passed.
    Well,
    /// The step, counted from 0, ended with an exit that doesn't pass, so no later step starts.
    Broke { step: u32, exit: u8 },
}

/// The steps of one attempt and the exits of those that ended (Tekton, Tasks, Specifying `onError` for a step).
#[derive(Drop)]
pub struct PodWalk {
    steps: u32,
    keep_going: u32,
    exits: [u8; 32],
    count: u32,
}

impl Model for PodWalk {
    ghost use Rattle.std.specs.Prelude.{◌≤◌, take};
    ghost use Rattle.tk_pod.specs.Walk.{IsWalk, Walk};

    ghost Value = { Walk };

    ghost view = { λ w. record { steps = w.steps; keep_going = w.keep_going; exits = take w.count w.exits } };

    ghost invariant = { λ w. IsWalk (record { steps = w.steps; keep_going = w.keep_going; exits = take w.count w.exits }) × w.count ≤ 32 };
}

/// Whether a step passes with an exit. Bit i of `keep_going` says that step i continues on error.
fn passes(keep_going: u32, step: u32, exit: u8) -> bool
    requires { step < 32 }
    ensures { result ≡ passes_with keep_going step exit }
{
    exit == 0 || (keep_going >> step) & 1 == 1
}

impl PodWalk {
    /// The walk of 1 to 32 steps of which none has ended. Bit i of `keep_going` says that step i continues on error.
    pub fn new(steps: u32, keep_going: u32) -> Self
        requires least { 1 ≤ steps }
        requires most { steps ≤ 32 }
        ensures { result ≡ record { steps = steps; keep_going = keep_going; exits = [] } }
    {
        PodWalk {
            steps,
            keep_going,
            exits: [0; 32],
            count: 0,
        }
    }

    /// The first step that ended and doesn't pass.
    fn broken(&self) -> Option<Walked>
        ensures { result ≡ first_broken self.now }
    {
        for step in 0..self.count {
            let exit = self.exits[step as usize];
            if !passes(self.keep_going, step, exit) {
                return Some(Walked::Broke { step, exit });
            }
        }
        None
    }

    /// How the walk ended; None exactly while it isn't over.
    pub fn outcome(&self) -> Option<Walked>
        ensures { result ≡ walked_so self.now }
    {
        match self.broken() {
            Some(walked) => Some(walked),
            None if self.count == self.steps => Some(Walked::Well),
            None => None,
        }
    }

    /// The step to start next; None exactly where the walk is over.
    pub fn next(&self) -> Option<u32>
        ensures { result ≡ next_step self.now }
    {
        match self.outcome() {
            None => Some(self.count),
            Some(_) => None,
        }
    }

    /// Takes the exit of the step that was next.
    pub fn ended(&mut self, exit: u8)
        requires { IsSome (next_step self.now) }
        ensures { self.new ≡ record { steps = self.old.steps; keep_going = self.old.keep_going; exits = self.old.exits ++ exit ∷ [] } }
    {
        self.exits[self.count as usize] = exit;
        self.count += 1;
    }
}
