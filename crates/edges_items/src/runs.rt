// Runs each value of the table, and prints what came out beside what is expected.
use crate::calls::{channel_of_item, weight_of_item};
use anyhow::{bail, ensure};
use std::fmt;

pub fn run_all(rt: &HostRuntime) -> anyhow::Result<()> {
    run_channels(rt)?;
    run_weights(rt)
}

fn run_channels(rt: &HostRuntime) -> anyhow::Result<()> {
    for (x, expected) in [
        (100, None),
        (101, Some(1)),
        (249, Some(1)),
        (250, Some(2)),
        (750, Some(3)),
    ] {
        let actual = channel_of_item(x)?;
        let (came, due) = (Sorted(actual), Sorted(expected));
        println!(rt; "limits 250 and 750, zone 100: {x} has {came}, expected {due}")?;
        ensure!(actual == expected, "an edge value came out wrong");
    }
    Ok(())
}

// Where an item goes: to a channel, or to none.
#[derive(Drop)]
struct Sorted(Option<u8>);

impl fmt::Display for Sorted {
    fn fmt<W: fmt::Write>(&self, f: &mut fmt::Formatter<W>) -> fmt::Result {
        match self.0 {
            Some(channel) => write!(f, "channel {channel}"),
            None => write!(f, "no channel"),
        }
    }
}

fn run_weights(rt: &HostRuntime) -> anyhow::Result<()> {
    for (label, correction, sum, number, expected) in [
        ("readings 1000 and 1001, correction", 0, 2_001, 2, 1_001),
        ("reading 1000, correction", 50, 1_000, 1, 1_005),
    ] {
        let Some(actual) = weight_of_item(correction, sum, number)? else {
            bail!("no item has such readings");
        };
        println!(rt; "{label} {correction} shows {actual}, expected {expected}")?;
        ensure!(actual == expected, "an edge value came out wrong");
    }
    Ok(())
}

#[cfg(test)]
mod tests {
    use super::*;
    use recipe::numbers::{Limits, SortNumbers};
    use recipe::sort::SortRecipe;
    use weight::fault::Fault;

    // The recipe of the table, written down.
    const EXAMPLE: SortRecipe = SortRecipe {
        numbers: SortNumbers {
            zone: 100,
            limits: Limits {
                places: [250, 750, 0, 0, 0, 0],
                count: 2,
            },
            correction: 0,
            times: [0; 4],
        },
    };

    fn channel_by(recipe: SortRecipe, x: i32) -> Option<u8> {
        recipe.channel(x)
    }

    // It is copied where it is passed by value, and so can be used again.
    #[test]
    fn written_recipe(rt: HostRuntime) {
        let recipe = EXAMPLE;
        assert_eq!(rt; channel_by(recipe, 100), None);
        assert_eq!(rt; channel_by(recipe, 249), Some(1));
        assert_eq!(rt; channel_by(recipe, 750), Some(3));
    }

    #[test]
    fn channel_edges(rt: HostRuntime) {
        assert_eq!(rt; channel_of_item(100), Ok(None));
        assert_eq!(rt; channel_of_item(101), Ok(Some(1)));
        assert_eq!(rt; channel_of_item(249), Ok(Some(1)));
        assert_eq!(rt; channel_of_item(250), Ok(Some(2)));
        assert_eq!(rt; channel_of_item(749), Ok(Some(2)));
        assert_eq!(rt; channel_of_item(750), Ok(Some(3)));
        assert_eq!(rt; channel_of_item(999_999), Ok(Some(3)));
        assert_eq!(rt; channel_of_item(1_000_000), Ok(None));
        assert_eq!(rt; channel_of_item(-101), Ok(None));
    }

    #[test]
    fn weight_edges(rt: HostRuntime) {
        assert_eq!(rt; weight_of_item(0, 2_001, 2), Ok(Some(1_001)));
        assert_eq!(rt; weight_of_item(50, 1_000, 1), Ok(Some(1_005)));
        assert_eq!(rt; weight_of_item(0, -2_001, 2), Ok(Some(-1_001)));
        assert_eq!(rt; weight_of_item(0, 0, 0), Ok(None));
        assert_eq!(rt;
            weight_of_item(200, 65_534_934_465, 65_535),
            Ok(Some(1_019_999))
        );
        assert_eq!(rt; weight_of_item(200, 65_534_934_466, 65_535), Ok(None));
        assert_eq!(rt; weight_of_item(201, 1_000, 1), Err(Fault::OutOfRange));
    }
}
