// Filling recipes.
ghost use Rattle.std.specs.Prelude.{◌≡◌, true};
ghost use Rattle.recipe.specs.Fills.{fill_in_range, fill_keeps, default_fill};

use crate::draft::{FillDraft, Material};
use weight::fault::Fault;

// Numbers that are in range and fit each other. Whoever makes one, or alters one, owes the proof of that.
#[derive(Clone, Copy)]
pub struct FillRecipe {
    pub numbers: FillDraft,
    ghost ranged: { fill_in_range numbers ≡ true },
    ghost kept: { fill_keeps numbers ≡ true },
}

impl FillRecipe {
    ghost use Rattle.recipe.specs.Made.{FillMade};

    // A recipe of these numbers, or the first refusal. A sorting recipe is made by the same two tests; one function for
    // both would want a trait of drafts, for three lines each.
    pub fn new(draft: FillDraft) -> Result<FillRecipe, Fault>
        ensures { FillMade draft result }
    {
        if !draft.is_in_range() {
            return Err(Fault::OutOfRange);
        }
        if !draft.is_consistent() {
            return Err(Fault::Inconsistent);
        }
        Ok(FillRecipe { numbers: draft })
    }
}

// The default recipe: the least that is allowed, and all switches off.
impl Default for FillRecipe {
    ghost is_default = { λ r. r.numbers ≡ default_fill };

    fn default() -> Self {
        FillRecipe {
            numbers: FillDraft {
                first: Material {
                    target: 1,
                    ..Material::default()
                },
                zone: 1,
                times: [1, 0, 0, 0, 0, 0, 0, 0],
                ..FillDraft::default()
            },
        }
    }
}
