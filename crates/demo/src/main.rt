// Commissions a station: a test load is weighed, and the lamps on both kinds of output board are driven.
#![tactic(auto)]

mod lamps;
mod load;

fn main(rt: HostRuntime) -> anyhow::Result<()> {
    commission(&rt)
}

fn commission(rt: &HostRuntime) -> anyhow::Result<()> {
    load::weigh_test_load(rt)?;
    lamps::drive_both_boards(rt)
}
