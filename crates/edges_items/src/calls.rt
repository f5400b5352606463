// The calls that the table is about, each made on a new recipe.
ghost use Rattle.std.specs.Prelude.{◌≡◌, Ok};
ghost use Rattle.recipe.specs.Items.{channel_answer};
ghost use Rattle.recipe.specs.Made.{sort_result};
ghost use Rattle.recipe.specs.Sorts.{sort_checked};
ghost use Rattle.edges_items.specs.Edges.{example_sorting, weight_answer};

use recipe::draft::SortDraft;
use recipe::sort::SortRecipe;
use weight::fault::Fault;

// A sorting recipe with zone 100 and the limits 250 and 750.
fn example_recipe(correction: u32) -> Result<SortRecipe, Fault>
    ensures { sort_result result ≡ sort_checked (example_sorting correction) }
{
    SortRecipe::new(SortDraft {
        zone: 100,
        limits: &[250, 750],
        correction,
        times: [0; 4],
    })
}

// The channel of an item of that weight, or none where it does not count.
pub fn channel_of_item(x: i32) -> Result<Option<u8>, Fault>
    ensures { result ≡ Ok (channel_answer (example_sorting 0) x) }
{
    let recipe = example_recipe(0)?;
    Ok(recipe.channel(x))
}

// The weight of an item of so many readings with that sum, under a correction.
pub fn weight_of_item(correction: u32, sum: i64, number: u32) -> Result<Option<i32>, Fault>
    ensures { result ≡ weight_answer (sort_checked (example_sorting correction)) sum number }
{
    let recipe = example_recipe(correction)?;
    Ok(recipe.item_weight(sum, number))
}
