// A board of eight outputs over switches of any kind.
ghost use Rattle.std.specs.Prelude.{◌≡◌, ◌<◌, ◌≤◌, ℕ};
ghost use Rattle.board.specs.Outputs.{new_board, refuses};
ghost use Rattle.board.specs.Kinds.{outputs_of};

use crate::kind::Board;
use weight::fault::Fault;

// Eight switches, switch n for output n, and the bytes that set them and are read of them.
pub trait Switches: Copy + From<u8> + Into<u8> {
    // How many of them may be on at a time.
    ghost LIMIT: { ℕ };

    const LIMIT: u8;

    // The byte that they make: bit n is 1 where switch n is on.
    ghost byte_of: { Self → ℕ };

    // Set from a byte, they make that byte again.
    ghost kept: { (byte : ℕ) (switches : Self) → byte < 256 → Self.from_gives byte switches → byte_of switches ≡ byte };

    // What is read of them is the byte that they make.
    ghost read: { (switches : Self) (byte : ℕ) → Self.converts switches byte → byte ≡ byte_of switches };

    // There are eight, so no more can be on.
    ghost limited: { LIMIT ≤ 8 };
}

// The switches as they are set, or none once the board is tripped: then no output is on.
#[derive(Drop)]
pub struct OutputBoard<S: Switches> {
    switches: Option<S>,
}

impl<S: Switches> OutputBoard<S> {
    // All outputs are off, and the board is not tripped.
    pub fn new() -> Self
        ensures { outputs_of S.byte_of S.LIMIT result ≡ new_board S.LIMIT }
    {
        OutputBoard {
            switches: Some(S::from(0)),
        }
    }

    // The test that a board makes before it lets a byte stand.
    #[tactic(auto, unfolding(crate::specs::Outputs::refuses))]
    fn refuses(&self, byte: u8) -> bool
        ensures { result ≡ refuses (outputs_of S.byte_of S.LIMIT self.now) byte }
    {
        byte != 0 && (self.tripped() || byte.count_ones() > u32::from(self.limit()))
    }
}

impl<S: Switches> Board for OutputBoard<S> {
    ghost has = { outputs_of S.byte_of S.LIMIT };

    ghost limited = { λ _. S.limited };

    fn standing(&self) -> u8 {
        self.switches.map_or(0, |switches| switches.into())
    }

    fn tripped(&self) -> bool {
        self.switches.is_none()
    }

    fn limit(&self) -> u8 {
        S::LIMIT
    }

    #[tactic(auto, unfolding(crate::specs::Outputs::refuses))]
    fn drive(&mut self, byte: u8) -> Result<(), Fault> {
        if self.refuses(byte) {
            self.trip();
            return Err(Fault::DriveRefused);
        }
        // A tripped board takes 0 alone, and stays tripped.
        if let Some(switches) = &mut self.switches {
            *switches = S::from(byte);
        }
        Ok(())
    }

    fn trip(&mut self) {
        self.switches = None;
    }

    fn reset(&mut self) {
        self.switches = Some(S::from(0));
    }
}
