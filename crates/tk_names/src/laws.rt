//! Laws of the definitions that the contracts cite.

ghost use Rattle.std.specs.Prelude.{◌≡◌, ◌≤◌, ◌<◌, ◌↔◌, ◌++◌, ℕ, List, length, take, Some, None, codes};
ghost use Rattle.std.specs.Str.{IsAscii};
ghost use Rattle.hex.specs.Hex.{encode_lower};
ghost use Rattle.md5.specs.Md5.{md5};
ghost use Rattle.tk_names.specs.Children.{most_attempts, pod_name, shortened};
ghost use Rattle.tk_names.specs.Clash.{clash, DifferBelow, IsClash};

/// There is no clash exactly where all names differ, and else the clash is the least place whose name stood earlier.
pub fn clash_is_the_first()
    ensures none { (names : List (List ℕ)) → (clash names ≡ None) ↔ DifferBelow names (length names) }
    ensures found { (names : List (List ℕ)) (earlier later : ℕ) → (clash names ≡ Some (earlier, later)) ↔ IsClash names earlier later }
{}

/// A long name of ASCII is cut at its 30th byte, and no shortened name has more than 63 bytes.
pub fn long_names_are_cut()
    ensures at_30 { (text : List ℕ) → IsAscii text → 63 < length text → shortened text ≡ take 30 text ++ codes "-" ++ encode_lower (md5 text) }
    ensures fits { (text : List ℕ) → length (shortened text) ≤ 63 }
{}

/// Two attempts of TaskRuns never share a pod's name.
pub fn pod_names_are_apart()
    ensures { (one other : List ℕ) (m n : ℕ) → m ≤ most_attempts → n ≤ most_attempts → pod_name one m ≡ pod_name other n → (one ≡ other) × (m ≡ n) }
{}
