// Who takes turns.
ghost use Rattle.std.specs.Prelude.{◌≡◌, ◌++◌, ℕ, List};
ghost use Rattle.tk_turn.specs.Claims.{Note};
ghost use Rattle.tk_passes.specs.Notes.{Adds, NoneOf};

use std::alloc::{AllocError, Global};
use tk_turn::{Journaled, Pass};

/// An actor, which takes turns with a state and writes entries under a number of its own.
pub trait Actor<S: Journaled> {
    ghost number: { Self → ℕ };

    /// What holds of the journal of each state.
    ghost sound: { List Note → Type 0 };

    /// What an entry of a number is like.
    ghost such: { ℕ → Note → Type 0 };

    /// The conditions of a turn, over this journal.
    ghost ready: { List Note → Self → Type 0 };

    /// What stands of the actor since a start, over this journal.
    ghost follows: { Self → Self → List Note → Type 0 };

    /// The conditions of a turn for which the actor was asked, over this journal.
    ghost asked: { List Note → Self → Type 0 };

    /// What stands of the actor then, since a start.
    ghost follows_asked: { Self → Self → List Note → Type 0 };

    /// Its number. It takes no memory.
    fn number(&self) -> u32
        ensures { result ≡ number self.now };

    /// The actor is asked for a turn, while the state isn't held.
    fn ask(&mut self)
        ensures number { number self.new ≡ number self.old }
        ensures ready { (journal : List Note) → ready journal self.old → asked journal self.new }
        ensures follows { (start : Self) (journal : List Note) → follows start self.old journal → follows_asked start self.new journal };

    /// The turn for which it was asked. It answers whether the actor may have more to do. The only error is want of memory.
    fn take_turn(&mut self, alloc: Global, state: &mut S) -> Result<bool, AllocError>
        requires { asked (S.journal state.old) self.old }
        ensures ready { ready (S.journal state.new) self.new }
        ensures number { number self.new ≡ number self.old }
        ensures adds { Adds (number self.old) (such (number self.old)) (S.journal state.old) (S.journal state.new) }
        ensures follows { (start : Self) → follows_asked start self.old (S.journal state.old) → follows start self.new (S.journal state.new) };

    /// The journal of a state is sound. It does nothing.
    fn sound_now(state: &S)
        ensures { sound (S.journal state.now) };

    /// Entries of others leave what stands of an actor. It does nothing.
    fn laws()
        ensures keep { (m : Self) (journal rest : List Note) → sound (journal ++ rest) → NoneOf (number m) rest → ready journal m → ready (journal ++ rest) m }
        ensures follow { (start m : Self) (journal rest : List Note) → sound (journal ++ rest) → NoneOf (number m) rest → ready journal m → follows start m journal → follows start m (journal ++ rest) }
        ensures keep_asked { (m : Self) (journal rest : List Note) → sound (journal ++ rest) → NoneOf (number m) rest → asked journal m → asked (journal ++ rest) m }
        ensures follow_asked { (start m : Self) (journal rest : List Note) → sound (journal ++ rest) → NoneOf (number m) rest → asked journal m → follows_asked start m journal → follows_asked start m (journal ++ rest) };
}

/// An actor, with room for its pass, and whether it lacked memory in its last round.
#[derive(Drop)]
pub struct Member<A> {
    pub actor: A,
    pub pass: Option<Pass>,
    pub lacked: bool,
}
