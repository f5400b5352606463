// The values at the edges of the rules: proved as one table, and run here by the code that the table is about.
#![tactic(auto)]

mod calls;
mod runs;
mod table;

fn main(rt: HostRuntime) -> anyhow::Result<()> {
    table::edge_values();
    runs::run_all(&rt)
}
