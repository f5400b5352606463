// Items are sorted by their weights, kept on a ring over lent memory and on a roll, and totalled.
use anyhow::{anyhow, bail};
use recipe::draft::SortDraft;
use recipe::sort::SortRecipe;
use store::kind::Store;
use store::record::{Stamped, Weight};
use store::ring::Ring;
use store::roll::Roll;
use totals::row::Row;
use totals::table::Totals;

// What a belt scale read of each item: the tick of its last gross weight, the sum of all, and their number.
const READINGS: [(u32, i64, u32); 9] = [
    (40, 2_001, 2),
    (95, 995, 10),
    (151, 1_000, 10),
    (203, 1_240, 5),
    (260, 1_245, 5),
    (318, 7_457, 10),
    (374, 7_462, 10),
    (429, 9_999_990, 10),
    (487, 4_420, 10),
];

// Zone 100, and one channel more than limits.
const ORDER: SortDraft<'static> = SortDraft {
    zone: 100,
    limits: &[250, 750],
    correction: 50,
    times: [0, 0, 0, 0],
};

pub fn sort_items(rt: &HostRuntime) -> anyhow::Result<()> {
    let SortDraft {
        zone,
        correction,
        ..
    } = ORDER;
    println!(rt;
        "Sorting: zone {zone}, limits {:?}, correction {correction} hundredths of a percent",
        ORDER.limits
    )?;
    refuse(
        rt,
        "limits 750 and 250",
        SortDraft {
            limits: &[750, 250],
            ..ORDER
        },
    )?;
    refuse(
        rt,
        "no limits",
        SortDraft {
            limits: &[],
            ..ORDER
        },
    )?;
    let recipe = SortRecipe::new(ORDER)?;
    sort_on_ring(rt, &recipe, &mut [])?;
    sort_on_ring(rt, &recipe, &mut [Stamped { weight: 0, tick: 0 }; 4])
}

fn refuse(rt: &HostRuntime, label: &str, draft: SortDraft<'_>) -> anyhow::Result<()> {
    let Err(fault) = SortRecipe::new(draft) else {
        bail!("a bad draft was accepted");
    };
    println!(rt; "  {label} refused, {fault}")?;
    Ok(())
}

fn sort_on_ring(
    rt: &HostRuntime,
    recipe: &SortRecipe,
    memory: &mut [Stamped],
) -> anyhow::Result<()> {
    match Ring::new(memory) {
        Ok(mut ring) => {
            let mut roll = Roll::new();
            let totals = sort_all(rt, recipe, &mut ring, &mut roll)?;
            print_records(rt, &ring)?;
            print_weights(rt, "The roll", &roll)?;
            replay(rt, &roll, &mut [Weight(0); 3])?;
            print_totals(rt, &totals)
        }
        Err(fault) => {
            println!(rt; "  a ring over no places refused, {fault}")?;
            Ok(())
        }
    }
}

// Weighs each item, and records what counts.
fn sort_all<R: Store, S: Store>(
    rt: &HostRuntime,
    recipe: &SortRecipe,
    ring: &mut R,
    roll: &mut S,
) -> anyhow::Result<Totals> {
    let mut totals = Totals::new();
    for (tick, sum, number) in READINGS {
        let x = recipe
            .item_weight(sum, number)
            .ok_or_else(|| anyhow!("no item has such readings"))?;
        print!(rt; "  tick {tick:>3}  readings {number:>2}  sum {sum:>7}  weighs {x:>7}")?;
        match recipe.channel(x) {
            Some(channel) => {
                totals.record(channel, x);
                ring.add(x, tick);
                roll.add(x, tick);
                println!(rt; "  channel {channel}")?;
            }
            None => println!(rt; "  does not count")?,
        }
    }
    Ok(totals)
}

fn print_records(rt: &HostRuntime, ring: &Ring<'_, Stamped>) -> anyhow::Result<()> {
    let kept = ring.len();
    println!(rt; "The ring keeps {kept}, oldest first")?;
    for Stamped { weight, tick } in (0..).map_while(|i| ring.at(i)) {
        println!(rt; "  tick {tick:>3}  weight {weight:>7}")?;
    }
    Ok(())
}

// Adds the weights of one store to a ring of plain weights.
fn replay<R: Store>(rt: &HostRuntime, from: &R, memory: &mut [Weight]) -> anyhow::Result<()> {
    let mut ring = Ring::new(memory)?;
    for weight in from.weights() {
        ring.add(weight, 0);
    }
    print_weights(rt, "A ring of plain weights", &ring)
}

fn print_weights<R: Store>(rt: &HostRuntime, name: &str, store: &R) -> anyhow::Result<()> {
    let kept = store.len();
    print!(rt; "{name} keeps {kept}:")?;
    for weight in store.weights() {
        print!(rt; " {weight}")?;
    }
    println!(rt; "")?;
    Ok(())
}

fn print_totals(rt: &HostRuntime, totals: &Totals) -> anyhow::Result<()> {
    println!(rt; "Totals by class")?;
    for (class, Row { count, weight }) in (0..).map_while(|class| Some((
        class,
        totals.row(class)?,
    ))) {
        println!(rt; "  {class}        count {count:>2}  weight {weight:>7}")?;
    }
    let Row { count, weight } = totals.overall();
    println!(rt; "  overall  count {count:>2}  weight {weight:>7}")?;
    Ok(())
}
