// The edge values of items, channels and their weights: proved as one table, and run here by the code that the table
// is about.
#![tactic(auto)]

mod calls;
mod runs;
mod table;

fn main(rt: HostRuntime) -> anyhow::Result<()> {
    table::item_edges();
    runs::run_all(&rt)
}
