//! Laws of the definitions that the contracts cite.

ghost use Rattle.std.specs.Prelude.{◌≡◌, ◌++◌, ◌∷◌, ℕ, List, Err, IsTrue, Some, map, option_and_then};
ghost use Rattle.std.specs.Cmp.Lexicographic.{slice_cmp};
ghost use Rattle.std.specs.List.Sorted.{IsStrictlySortedBy};
ghost use Rattle.std.specs.Ordering.{nat_cmp};
ghost use Rattle.serde_json.specs.Find.{as_str};
ghost use Rattle.serde_json.specs.Read.{read};
ghost use Rattle.tk_types.specs.declared.value.Pair.{Pair};
ghost use Rattle.tk_types.specs.declared.value.ParamType.TheVariants.{Obj as object};
ghost use Rattle.tk_types.specs.declared.value.ResultSpec.{ResultSpec};
ghost use Rattle.tk_types.specs.declared.value.Value.TheVariants.{Arr, Obj, Str};
ghost use Rattle.tk_results.specs.declared.files.Fetched.{Fetched};
ghost use Rattle.tk_results.specs.declared.refusal.GatherError.TheVariants.{Bad};
ghost use Rattle.tk_results.specs.Gathered.{gathered};
ghost use Rattle.tk_results.specs.Read.{list_of, object_of, value_of};
ghost use Rattle.tk_results.specs.Told.{IsFirstRefused, is_undeclared};
ghost use Rattle.tk_results.specs.Written.{json_text};

/// What is told as refused is the first declared result whose file is no value of its type.
pub fn first_refused()
    ensures { (specs : List ResultSpec) (files : List Fetched) (name : List ℕ) → gathered specs files ≡ Err (Bad name) → IsFirstRefused files specs name }
{}

/// A file of an undeclared name changes nothing.
pub fn undeclared()
    ensures { (specs : List ResultSpec) (before after : List Fetched) (file : Fetched) → IsTrue (is_undeclared specs file) → gathered specs (before ++ file ∷ after) ≡ gathered specs (before ++ after) }
{}

/// The pairs of an object have different keys, ascending by their bytes.
pub fn keys_ascend()
    ensures { (bytes : List ℕ) (pairs : List Pair) → value_of object bytes ≡ Some (Obj pairs) → IsStrictlySortedBy (slice_cmp nat_cmp) (map (λ (p : Pair). p.key) pairs) }
{}

/// The JSON text of a value reads back as the value, if the keys of an object are different and ascend by their bytes.
pub fn reads_back()
    ensures text { (text : List ℕ) → option_and_then as_str (read (json_text (Str text))) ≡ Some text }
    ensures list { (texts : List (List ℕ)) → option_and_then list_of (read (json_text (Arr texts))) ≡ Some texts }
    ensures object { (pairs : List Pair) → IsStrictlySortedBy (slice_cmp nat_cmp) (map (λ (p : Pair). p.key) pairs) → option_and_then object_of (read (json_text (Obj pairs))) ≡ Some pairs }
{}
