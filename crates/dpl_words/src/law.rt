//! Laws of the command line.
ghost use Rattle.std.specs.Prelude.{◌≡◌, List, ℕ, IfSome, is_some, true};
ghost use Rattle.clap.specs.Simple.{subcommand_of};
ghost use Rattle.dpl_words.specs.Definition.{dpl_app};
ghost use Rattle.dpl_words.specs.Meaning.{is_taken};
ghost use Rattle.dpl_words.specs.Ranges.{HasItsValues};

/// Words that `clap` takes name a subcommand.
pub fn taken_names_a_subcommand()
    ensures { (words : List (List ℕ)) → is_taken words ≡ true → is_some (subcommand_of dpl_app words) ≡ true }
{}

/// The subcommand of words that `clap` takes has each of its values: the required ones and those with a default, each number in its range.
pub fn taken_has_its_values()
    ensures { (words : List (List ℕ)) → is_taken words ≡ true → IfSome (subcommand_of dpl_app words) HasItsValues }
{}
