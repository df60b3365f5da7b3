//! The layout of a GDSII Stream file (GDSII Stream Format, Release 6): in `specs/`, what its records are, which lists of
//! records make a library, what that library is, and where a file that is none is refused first.
#![tactic(auto)]

ghost use Rattle.std.specs.Prelude.{◌≡◌, ℕ, List};
ghost use Rattle.dpl_spec_format.specs.Faults.{Fault};
ghost use Rattle.dpl_spec_format.specs.Tree.{Library};
ghost use Rattle.dpl_spec_format.specs.Layout.{Holds, IsFirstFault};

/// A file holds at most one library or has at most one first fault, and not both.
pub fn one_reading()
    ensures library { (bytes : List ℕ) (lib other : Library) → Holds bytes lib → Holds bytes other → lib ≡ other }
    ensures fault { (bytes : List ℕ) (f g : Fault) → IsFirstFault bytes f → IsFirstFault bytes g → f ≡ g }
    ensures apart { (bytes : List ℕ) (lib : Library) (f : Fault) → Holds bytes lib → IsFirstFault bytes f → ⊥ }
{}
