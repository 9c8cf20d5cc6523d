// What a locked state says of itself.
ghost use Rattle.std.specs.Prelude.{◌≡◌, List, length};
ghost use Rattle.tk_turn.specs.Claims.{Note};

/// A state that keeps a journal, whose entries have owners. An entry is told by its owner, which is a number, and by the
/// code of what it says.
pub trait Journaled {
    ghost journal: { Self → List Note };

    /// The number of entries. It takes no memory.
    fn length(&self) -> u64
        ensures { result ≡ length (journal self.now) };
}
