//! What the numbers of pointers tell: a law of the definitions.
ghost use Rattle.std.specs.Prelude.{◌≡◌, ℕ, ◌<◌, Option};
ghost use Rattle.epoch_cells.specs.declared.cells.name.Name.{Name};
ghost use Rattle.epoch_atomic.specs.Pointers.{tagged_word, SameName};

/// Two pointers with equal numbers have the same tag, and are both null or name the same slot and turn. So `==`
/// compares names and tags.
pub fn equal_numbers_are_of_one_pointer()
    // Pointers are equal and ordered as their numbers are, and both relations are lawful. Equal numbers are of one name
    // and one tag.
    ensures { (one other : Option Name) (s t : ℕ) → s < 256 → t < 256 → tagged_word one s ≡ tagged_word other t
        → SameName one other × (s ≡ t) }
{}
