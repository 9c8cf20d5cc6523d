ghost use Rattle.std.specs.Prelude.{◌≡◌, ◌<◌};
ghost use Rattle.tk_gen.specs.Generate.{next, one_of};

/// The draws of a pipeline, one after the other.
#[derive(Drop)]
pub(crate) struct Draws {
    /// What the last draw left, or the number that they begin with.
    state: u32,
}

impl Draws {
    /// The draws that begin with this number.
    pub(crate) fn new(number: u32) -> Self
        ensures { result.state ≡ number }
    {
        Draws { state: number }
    }

    /// Draws one of the numbers below `count`.
    #[tactic(auto, unfolding(crate::specs::Generate::next, crate::specs::Generate::one_of))]
    pub(crate) fn draw(&mut self, count: u32) -> u32
        requires { 0 < count }
        ensures state { self.new.state ≡ next self.old.state }
        ensures drawn { result ≡ one_of count self.new.state }
    {
        let state = (u64::from(self.state) * 1_103_515_245 + 12_345) % 2_147_483_648;
        self.state = state as u32;
        self.state / 65_536 % count
    }
}
