// A test load of 2,500 is put on the scale: through a converter, and smoothed.
use anyhow::bail;
use scale::converter::Converter;
use scale::kind::Scale;
use scale::reading::{Reading, Sample};
use scale::settings::Settings;
use scale::smoothing::Smoothing;
use weighing::weigh_by_smoothed_converter;

// Unloaded the cell sends 1,000, and two codes more for each unit of weight.
const STATION: Settings = Settings {
    zero: 1_000,
    span: 40_000,
    capacity: 20_000,
    division: 5,
    width: 10,
};

// What the cell sends while the load swings in.
const CODES: [i32; 17] = [
    1_000, 1_003, 2_900, 6_420, 6_310, 5_790, 6_080, 5_970, 6_012, 5_994, 6_004, 5_998, 6_001,
    6_000, 6_002, 5_999, 6_000,
];

pub fn weigh_test_load(rt: &HostRuntime) -> anyhow::Result<()> {
    let Settings {
        zero,
        span,
        capacity,
        division,
        width,
    } = STATION;
    println!(rt;
        "Test load on a converter: zero {zero}, span {span}, capacity {capacity}, division {division}, width {width}"
    )?;
    refuse_bad_division(rt)?;
    let converter = Converter::new(STATION)?;
    show_each(rt, Smoothing::new(converter))?;
    replay(rt)
}

// Weights are shown in steps of 1, 2, 5, 10, 20 or 50, so a division of 3 is refused.
fn refuse_bad_division(rt: &HostRuntime) -> anyhow::Result<()> {
    let numbers = Settings {
        division: 3,
        ..STATION
    };
    let Err(fault) = Converter::new(numbers) else {
        bail!("division 3 was accepted");
    };
    println!(rt; "  division 3 refused, {fault}")?;
    Ok(())
}

fn sample_of(code: i32) -> Sample {
    Sample {
        value: code,
        steady: false,
    }
}

// Prints what the scale shows before the first sample, and after each.
fn show_each<S: Scale + Drop>(rt: &HostRuntime, mut scale: S) -> anyhow::Result<()> {
    print_reading(rt, "before any sample", scale.read())?;
    for code in CODES {
        scale.sample(sample_of(code));
        let label = format!(in rt.alloc(); "code {code}")?;
        print_reading(rt, label.as_str(), scale.read())?;
    }
    Ok(())
}

fn print_reading(rt: &HostRuntime, label: &str, reading: Reading) -> anyhow::Result<()> {
    let gross = reading.gross;
    // The words of this table; a Display for readings would fix them, and the columns, for every program.
    let stable = if reading.stable {
        "stable"
    } else {
        "not stable"
    };
    println!(rt; "  {label:<18} gross {gross:>5}  {stable}")?;
    Ok(())
}

// The same samples once more, in one call whose contract says what must come out.
fn replay(rt: &HostRuntime) -> anyhow::Result<()> {
    let reading = weigh_by_smoothed_converter(STATION, &CODES.map(sample_of))?;
    print_reading(rt, "replayed", reading)
}
