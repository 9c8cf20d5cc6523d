//! Laws of the definitions that the contracts cite.

ghost use Rattle.std.specs.Prelude.{◌≡◌, ◌≢◌, ℕ, List, Some, None, codes};
ghost use Rattle.tk_space.specs.Apart.{FoldersFollow, IsInOrder, IsName, IsWithin, LiesUnder};
ghost use Rattle.tk_space.specs.Space.{claims_folder, space_folder, spaces_folder};

use tk_types::{Space, SpaceSpec};

/// The folder of an `emptyDir` lies under `ROOT/POD/ws`, and that of a claim under `ROOT/claims`.
pub fn folders_lie_under()
    ensures own { (root pod : List ℕ) (space : Space) → space.claim ≡ None → LiesUnder (spaces_folder root pod) (space_folder root pod space) }
    ensures claims { (root pod claim : List ℕ) (space : Space) → space.claim ≡ Some claim → LiesUnder (claims_folder root) (space_folder root pod space) }
{}

/// The folder of an `emptyDir` neither is nor lies under a folder of another pod, an `emptyDir`'s or, where the pod
/// isn't named `claims`, any.
pub fn own_folders_are_apart()
    ensures of_pods { (root pod other : List ℕ) (space far : Space) → pod ≢ other → IsName pod → IsName other
        → space.claim ≡ None → far.claim ≡ None
        → IsWithin (space_folder root other far) (space_folder root pod space) → ⊥ }
    ensures of_claims { (root pod other : List ℕ) (space far : Space) → pod ≢ other → IsName pod → IsName other → pod ≢ codes "claims"
        → space.claim ≡ None
        → IsWithin (space_folder root other far) (space_folder root pod space) → ⊥ }
{}

/// Where the bound workspaces stand in the order of the declarations, their folders are those of the declared
/// workspaces that are bound.
pub fn folders_follow_declarations()
    ensures { (root pod : List ℕ) (specs : List SpaceSpec) (bound : List Space) → IsInOrder specs bound → FoldersFollow root pod specs bound }
{}
