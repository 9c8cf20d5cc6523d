//! Laws of the definitions that the contract cites.

ghost use Rattle.std.specs.Prelude.{◌≡◌, ◌<◌, ℕ, map, All};
ghost use Rattle.std.specs.List.{range_with_len};
ghost use Rattle.std.specs.Option.{ForSome};
ghost use Rattle.tk_gen.specs.Generate.{tasks};

/// A pipeline of a size has as many tasks, named by their places in order. Each follows an earlier one, if any, so none
/// waits for itself, and each has at most two retries.
pub fn tasks_follow_earlier_ones()
    ensures places { (number size : ℕ) → map (λ t. t.place) (tasks number size) ≡ range_with_len 0 size }
    ensures earlier { (number size : ℕ) → All (λ t. ForSome t.parent (λ parent. parent < t.place)) (tasks number size) }
    ensures retries { (number size : ℕ) → All (λ t. t.retries < 3) (tasks number size) }
{}
