ghost use Rattle.std.specs.Prelude.{◌≡◌, ◌∷◌, ◌<◌, ◌^◌, ℕ, Bool, List, true, false, length};
ghost use Rattle.tk_journal.specs.declared.entry.Entry.{Entry as AnEntry};
ghost use Rattle.tk_journal.specs.Legal.{IsLegal};
ghost use Rattle.tk_rounds.specs.Bench.{AllFollow, AllReady};
ghost use Rattle.tk_rounds.specs.Growth.{AreDistinct, GrowsBy, IsOwn, OfOne};

use std::alloc::{AllocError, Global};
use tk_store::Store;

/// A member of a bench, which takes turns under its number.
pub trait Member {
    /// The entries that are a member's, by its number.
    ghost mine: { ℕ → AnEntry → Bool };

    ghost number: { Self → ℕ };

    /// The conditions of a turn, over this history.
    ghost ready: { List AnEntry → Self → Type 0 };

    /// What stands of the member since a start, over this history.
    ghost follows: { Self → Self → List AnEntry → Type 0 };

    /// A turn: the gate is asked, with the lag of this moment, and the rest follows. It answers whether the member may have
    /// more to do: it wrote an entry, or its cache moved. The only error is want of memory.
    fn take_turn(&mut self, alloc: Global, store: &mut Store) -> Result<bool, AllocError>
        requires ready { ready store.old.history self.old }
        ensures legal { IsLegal store.new.history }
        ensures ready { ready store.new.history self.new }
        ensures number { number self.new ≡ number self.old }
        ensures grows { GrowsBy (IsOwn (mine (number self.old))) store.old.history store.new.history }
        ensures follows { (start : Self) → follows start self.old store.old.history → follows start self.new store.new.history };

    /// No entry is two members', and legal entries of others leave what stands of a member. It does nothing.
    fn laws()
        ensures distinct { AreDistinct mine }
        ensures keep { (m : Self) (history : List AnEntry) (e : AnEntry) → IsLegal (e ∷ history) → mine (number m) e ≡ false → ready history m → ready (e ∷ history) m }
        ensures follow { (start m : Self) (history : List AnEntry) (e : AnEntry) → IsLegal (e ∷ history) → mine (number m) e ≡ false → ready history m → follows start m history → follows start m (e ∷ history) };
}

/// How many turns a member takes in a round at most.
const TURNS: u64 = 64;

/// Up to 64 turns of one member; it leaves at its first one that did nothing. The only error is want of memory.
pub(crate) fn turns<M: Member>(
    member: &mut M,
    alloc: Global,
    store: &mut Store,
) -> Result<(), AllocError>
    requires ready { M.ready store.old.history member.old }
    ensures legal { IsLegal store.new.history }
    ensures ready { M.ready store.new.history member.new }
    ensures number { M.number member.new ≡ M.number member.old }
    ensures grows { GrowsBy (IsOwn (M.mine (M.number member.old))) store.old.history store.new.history }
    ensures follows { (start : M) → M.follows start member.old store.old.history → M.follows start member.new store.new.history }
{
    store.legal();
    for _ in 0..TURNS {
        if !member.take_turn(alloc, store)? {
            return Ok(());
        }
    }
    Ok(())
}

/// Each member of one kind in order. The only error is want of memory.
pub(crate) fn part<M: Member>(
    members: &mut [M],
    alloc: Global,
    store: &mut Store,
) -> Result<(), AllocError>
    requires sizes { length members.old < 2 ^ 32 }
    requires ready { AllReady M.number M.ready store.old.history members.old }
    ensures legal { IsLegal store.new.history }
    ensures ready { AllReady M.number M.ready store.new.history members.new }
    ensures count { length members.new ≡ length members.old }
    ensures grows { GrowsBy (OfOne M.mine (length members.old)) store.old.history store.new.history }
    ensures follows { AllFollow M.follows members.old members.new store.old.history store.new.history }
{
    M::laws();
    store.legal();
    for i in 0..members.len() as u32 {
        turns(&mut members[i as usize], alloc, store)?;
    }
    Ok(())
}
