// Filling recipes are drafted for an order of bags.
use recipe::draft::{FillDraft, Material};
use recipe::fill::FillRecipe;

// Bags of 5,000: coarse feed until 400 before, fine feed until 30 before, and good within 20.
const BAG: Material = Material {
    target: 5_000,
    coarse_preact: 400,
    fine_preact: 30,
    tolerance: 20,
};

pub fn draft_recipes(rt: &HostRuntime) -> anyhow::Result<()> {
    println!(rt; "Filling recipes")?;
    let least = FillRecipe::default().numbers;
    draft(rt, "default recipe", least)?;
    let bags = FillDraft {
        first: BAG,
        zone: 50,
        ..least
    };
    draft(rt, "bags of 5000", bags)?;
    draft(
        rt,
        "without inhibit time",
        FillDraft {
            times: [0; 8],
            ..bags
        },
    )?;
    draft(
        rt,
        "fine preact 401",
        FillDraft {
            first: Material {
                fine_preact: 401,
                ..BAG
            },
            ..bags
        },
    )
}

fn draft(rt: &HostRuntime, label: &str, numbers: FillDraft) -> anyhow::Result<()> {
    match FillRecipe::new(numbers) {
        Ok(recipe) => {
            let Material {
                target,
                coarse_preact,
                fine_preact,
                tolerance,
            } = recipe.numbers.first;
            let zone = recipe.numbers.zone;
            println!(rt;
                "  {label}: A {target}, b {coarse_preact}, C {fine_preact}, d {tolerance}, Z {zone}"
            )?;
        }
        Err(fault) => println!(rt; "  {label} refused, {fault}")?,
    }
    Ok(())
}
