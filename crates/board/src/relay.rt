// A box of eight relays, relay n for output n. All of them may be on at a time.
ghost use Rattle.std.specs.Prelude.{◌≡◌};
ghost use Rattle.board.specs.Kinds.{relay_limit, relays_byte};
ghost use Rattle.board.specs.Relays.{bits, byte_of};
ghost use Rattle.board.specs.Bytes.{byte_bits};
ghost use Rattle.std.proofs.Common.{lit≤, ap, ◌∙◌};

use crate::output::{OutputBoard, Switches};

// Relay n is on where bit n of the byte is 1. Set and read in loops: of `array::from_fn` no fact is known.
#[derive(Clone, Copy)]
pub struct Relays(pub [bool; 8]);

pub type RelayBox = OutputBoard<Relays>;

impl From<u8> for Relays {
    ghost from_gives = { λ byte relays. relays.0 ≡ bits byte };

    #[tactic(auto, using(crate::proofs::EachRelay::eight_bits))]
    fn from(byte: u8) -> Relays {
        let mut relays = [false; 8];
        for (n, on) in relays.iter_mut().enumerate() {
            *on = (byte >> n) & 1 == 1;
        }
        Relays(relays)
    }
}

impl From<Relays> for u8 {
    ghost from_gives = { λ relays byte. byte ≡ relays_byte relays };

    fn from(relays: Relays) -> u8 {
        let mut byte = 0;
        for (n, on) in relays.0.iter().enumerate() {
            byte += u8::from(*on) << n;
        }
        byte
    }
}

impl Switches for Relays {
    ghost LIMIT = { relay_limit };

    const LIMIT: u8 = 8;

    ghost byte_of = { relays_byte };

    ghost kept = { λ byte relays fits same. ap byte_of same ∙ byte_bits byte fits };

    ghost read = { λ _ _ same. same };

    ghost limited = { lit≤ tt };
}
