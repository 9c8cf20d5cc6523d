//! Laws of the definitions that the contracts cite.

ghost use Rattle.std.specs.Prelude.{◌≡◌, ◌≤◌, ◌↔◌, ℕ, List, Some};
ghost use Rattle.tk_time.specs.Duration.{duration_of, duration_text, longest_duration, IsDuration};
ghost use Rattle.tk_time.specs.Moment.{moment_text, moment_of, last_moment};

/// A text reads as a duration exactly where the grammar of durations has it, with that sum.
pub fn durations_by_grammar()
    ensures { (text : List ℕ) (millis : ℕ) → (duration_of text ≡ Some millis) ↔ IsDuration text millis }
{}

/// A printed duration reads as the number of milliseconds that was printed, up to the limit.
pub fn durations_read_back()
    ensures { (millis : ℕ) → millis ≤ longest_duration → duration_of (duration_text millis) ≡ Some millis }
{}

/// A printed moment names, by the calendar and the clock, the number of milliseconds that was printed.
pub fn moments_read_back()
    ensures { (millis : ℕ) → millis ≤ last_moment → moment_of (moment_text millis) ≡ Some millis }
{}
