// Runs each value of the table, and prints what came out beside what is expected.
use crate::calls::{driven_once, gross_of_code, smoothed_pair};
use anyhow::ensure;

pub fn run_all(rt: &HostRuntime) -> anyhow::Result<()> {
    run_converter(rt)?;
    run_smoothing(rt)?;
    run_board(rt)
}

fn run_converter(rt: &HostRuntime) -> anyhow::Result<()> {
    for (above, expected) in [(5, 5), (4, 0), (-5, -5)] {
        let actual = gross_of_code(1_000, 1_000 + above)?;
        compare(rt, "converter, codes above zero:", above, actual, expected)?;
    }
    Ok(())
}

fn run_smoothing(rt: &HostRuntime) -> anyhow::Result<()> {
    compare(rt, "smoothing, 1 and", 2, smoothed_pair(1, 2), 2)?;
    compare(rt, "smoothing, -1 and", -2, smoothed_pair(-1, -2), -2)
}

// A value that came out wrong ends the program with an error.
fn compare(
    rt: &HostRuntime,
    label: &str,
    input: i32,
    actual: i32,
    expected: i32,
) -> anyhow::Result<()> {
    println!(rt; "{label} {input} shows {actual}, expected {expected}")?;
    ensure!(actual == expected, "an edge value came out wrong");
    Ok(())
}

fn run_board(rt: &HostRuntime) -> anyhow::Result<()> {
    for (byte, standing, tripped) in [(0x06u8, 0x06u8, false), (0x07, 0x00, true)] {
        let (answer, stands, trips) = driven_once(byte);
        // A word of this table alone.
        let word = if answer.is_ok() {
            "accepted"
        } else {
            "refused"
        };
        println!(rt;
            "limit 2, {byte:02X}H {word}: {stands:02X}H stands, tripped {trips}; expected {standing:02X}H, {tripped}"
        )?;
        let right = answer.is_err() == tripped && stands == standing && trips == tripped;
        ensure!(right, "an edge value came out wrong");
    }
    Ok(())
}

#[cfg(test)]
mod tests {
    use super::*;
    use weight::fault::Fault;

    #[test]
    fn converter_edges(rt: HostRuntime) {
        assert_eq!(rt; gross_of_code(0, 5), Ok(5));
        assert_eq!(rt; gross_of_code(-8_388_602, -8_388_598), Ok(0));
        assert_eq!(rt; gross_of_code(8_388_602, 8_388_597), Ok(-5));
        assert_eq!(rt; gross_of_code(8_388_608, 0), Err(Fault::OutOfRange));
    }

    #[test]
    fn smoothing_edges(rt: HostRuntime) {
        assert_eq!(rt; smoothed_pair(1, 2), 2);
        assert_eq!(rt; smoothed_pair(-1, -2), -2);
        assert_eq!(rt; smoothed_pair(2_147_483_647, 2_147_483_647), 999_999);
    }

    #[test]
    fn board_edges(rt: HostRuntime) {
        assert_eq!(rt; driven_once(0x06), (Ok(()), 0x06, false));
        assert_eq!(rt; driven_once(0x07), (Err(Fault::DriveRefused), 0x00, true));
        assert_eq!(rt; driven_once(0x00), (Ok(()), 0x00, false));
    }
}
