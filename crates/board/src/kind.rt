// What every kind of output board does. A line drives any board that meets this.
ghost use Rattle.std.specs.Prelude.{◌≡◌, ◌≤◌};
ghost use Rattle.board.specs.Outputs.{Outputs, driven, drive_answer, after_trip, after_reset};

use weight::fault::Fault;

pub trait Board {
    // All that can be known of a board from outside.
    ghost has: { Self → Outputs };

    // The byte that stands.
    fn standing(&self) -> u8
        ensures value { result ≡ (has self.now).standing };

    // Whether the board is tripped: then it refuses every byte but 0.
    fn tripped(&self) -> bool
        ensures value { result ≡ (has self.now).tripped };

    // How many outputs may be on at a time. It never changes.
    fn limit(&self) -> u8
        ensures value { result ≡ (has self.now).limit };

    // Lets the byte stand, or refuses it: then 0 stands, and the board is tripped. 0 is never refused.
    fn drive(&mut self, byte: u8) -> Result<(), Fault>
        ensures answer { result ≡ drive_answer (has self.old) byte }
        ensures after { has self.new ≡ driven (has self.old) byte };

    // Leaves 0 and the tripped mark.
    fn trip(&mut self)
        ensures after { has self.new ≡ after_trip (has self.old) };

    // Leaves 0 and no tripped mark.
    fn reset(&mut self)
        ensures after { has self.new ≡ after_reset (has self.old) };

    // There are eight outputs, so no more can be on.
    ghost limited: { (b : Self) → (has b).limit ≤ 8 };
}
