//! Laws of the definitions that the contracts cite.

ghost use Rattle.std.specs.Prelude.{◌≡◌, ◌+◌, ◌++◌, ◌<◌, ℕ, false, List, [], Some, Contains, IsTrue, filter, length, slice_get, take};
ghost use Rattle.tk_types.specs.declared.task.Matrix.{Matrix};
ghost use Rattle.tk_types.specs.declared.value.Param.{Param};
ghost use Rattle.tk_matrix.specs.Product.{list_of, has_distinct_texts, product_combination};
ghost use Rattle.tk_matrix.specs.Include.{agrees, stands_alone};
ghost use Rattle.tk_matrix.specs.Combinations.{has_empty_list, list_count, combination_count, combination, combinations};

/// Where one of the lists is empty there is no combination.
pub fn empty_list()
    ensures count { (matrix : Matrix) (param : Param) → Contains matrix.params param → list_of param.value ≡ [] → combination_count matrix ≡ 0 }
    ensures none { (matrix : Matrix) (param : Param) → Contains matrix.params param → list_of param.value ≡ [] → combinations matrix ≡ [] }
{}

/// Without include entries, and where no list has a text twice, equal combinations have one index.
pub fn product_differs()
    ensures { (matrix : Matrix) (i j : ℕ) → matrix.include ≡ [] → IsTrue (has_distinct_texts matrix.params) → i < combination_count matrix → j < combination_count matrix → combination matrix i ≡ combination matrix j → i ≡ j }
{}

/// An include entry that agrees with no combination of the lists is a combination of its own, behind those of the
/// lists and those of the earlier entries of its kind.
pub fn entry_alone()
    ensures counted { (matrix : Matrix) (k : ℕ) (entry : List Param) → has_empty_list matrix.params ≡ false → slice_get matrix.include k ≡ Some entry → ((i : ℕ) → i < list_count matrix.params → agrees (product_combination matrix.params i) entry ≡ false) → list_count matrix.params + length (filter (stands_alone matrix.params) (take k matrix.include)) < combination_count matrix }
    ensures given { (matrix : Matrix) (k : ℕ) (entry : List Param) → has_empty_list matrix.params ≡ false → slice_get matrix.include k ≡ Some entry → ((i : ℕ) → i < list_count matrix.params → agrees (product_combination matrix.params i) entry ≡ false) → combination matrix (list_count matrix.params + length (filter (stands_alone matrix.params) (take k matrix.include))) ≡ entry }
{}

/// An include entry changes no text that a combination takes from the lists: what it adds stands behind them.
pub fn lists_kept()
    ensures { (matrix : Matrix) (i : ℕ) → i < list_count matrix.params → (added : List Param) × (combination matrix i ≡ product_combination matrix.params i ++ added) }
{}
