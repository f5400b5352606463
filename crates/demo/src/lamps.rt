// The lamps of a station, on either kind of output board.
use board::kind::Board;
use board::relay::RelayBox;
use board::transistor::TransistorBoard;

pub fn drive_both_boards(rt: &HostRuntime) -> anyhow::Result<()> {
    let mut transistors = TransistorBoard::new();
    drive_lamps(rt, "transistor board", &mut transistors)?;
    let mut relays = RelayBox::new();
    drive_lamps(rt, "relay box", &mut relays)
}

// One lamp, two, three, one again and none; then, after a reset, one lamp through a trip by hand.
fn drive_lamps<B: Board>(rt: &HostRuntime, name: &str, board: &mut B) -> anyhow::Result<()> {
    let limit = board.limit();
    println!(rt; "Lamps on a {name}: at most {limit} outputs on at a time")?;
    for byte in [0x02u8, 0x06, 0x07, 0x02, 0x00] {
        drive(rt, board, byte)?;
    }
    board.reset();
    print_board(rt, "reset", board)?;
    drive(rt, board, 0x40)?;
    board.trip();
    print_board(rt, "trip", board)?;
    drive(rt, board, 0x40)?;
    board.reset();
    print_board(rt, "reset", board)
}

fn drive<B: Board>(rt: &HostRuntime, board: &mut B, byte: u8) -> anyhow::Result<()> {
    // The number alone: the column has no room for the name.
    let label = match board.drive(byte) {
        Ok(()) => format!(in rt.alloc(); "drive {byte:02X}H")?,
        Err(fault) => format!(in rt.alloc();
            "drive {byte:02X}H refused, fault {}",
            fault.number()
        )?,
    };
    print_board(rt, label.as_str(), board)
}

fn print_board<B: Board>(rt: &HostRuntime, label: &str, board: &B) -> anyhow::Result<()> {
    let standing = board.standing();
    // A word of this table alone.
    let tripped = if board.tripped() { ", tripped" } else { "" };
    println!(rt; "  {label:<28} {standing:02X}H stands{tripped}")?;
    Ok(())
}
