// A board that keeps its outputs as one byte. At most two of them may be on at a time.
ghost use Rattle.std.specs.Prelude.{◌≡◌};
ghost use Rattle.board.specs.Kinds.{transistor_limit, transistors_byte};
ghost use Rattle.std.proofs.Common.{lit≤};

use crate::output::{OutputBoard, Switches};

// Transistor n is on where bit n of the byte is 1.
#[derive(Clone, Copy)]
pub struct Transistors(pub u8);

pub type TransistorBoard = OutputBoard<Transistors>;

impl From<u8> for Transistors {
    ghost from_gives = { λ byte transistors. transistors.0 ≡ byte };

    fn from(byte: u8) -> Transistors {
        Transistors(byte)
    }
}

impl From<Transistors> for u8 {
    ghost from_gives = { λ transistors byte. byte ≡ transistors_byte transistors };

    fn from(transistors: Transistors) -> u8 {
        transistors.0
    }
}

impl Switches for Transistors {
    ghost LIMIT = { transistor_limit };

    const LIMIT: u8 = 2;

    ghost byte_of = { transistors_byte };

    ghost kept = { λ _ _ _ same. same };

    ghost read = { λ _ _ same. same };

    ghost limited = { lit≤ tt };
}
