// Filling recipes are drafted, and items are sorted, kept and totalled.
#![tactic(auto)]

mod bags;
mod items;

fn main(rt: HostRuntime) -> anyhow::Result<()> {
    work_through(&rt)
}

fn work_through(rt: &HostRuntime) -> anyhow::Result<()> {
    bags::draft_recipes(rt)?;
    items::sort_items(rt)
}
