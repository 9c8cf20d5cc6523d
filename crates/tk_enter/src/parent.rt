ghost use Rattle.std.specs.Prelude.{◌≡◌, Bool};

/// The process that started the program.
pub trait Parent {
    /// Whether it was found gone when it was last asked for.
    ghost gone: { Self → Bool };

    /// Whether it is gone.
    fn is_gone(&mut self) -> bool
        ensures { result ≡ gone self.new };
}
