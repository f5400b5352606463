// Every refusal of the controller has a number of its own, which operators see and hosts are sent.
ghost use Rattle.std.specs.Prelude.{◌≡◌, Some};
ghost use Rattle.weight.specs.Faults.{number_of, name_of, text_of};

use std::error::Error;
use std::fmt;

#[derive(Clone, Copy, PartialEq, Eq, Debug)]
pub enum Fault {
    // a number of a recipe or converter is out of its range
    OutOfRange = 1,
    // the numbers of a recipe do not fit each other
    Inconsistent = 2,
    // run, load or clear away from rest
    NotAtRest = 3,
    // run without a recipe
    NoRecipe = 4,
    // a new line's address is no letter from A to Z
    BadAddress = 5,
    // run with full totals
    TotalsFull = 6,
    // finish, stop or pause at rest
    AtRest = 7,
    // a tick's drive is refused; a board answers the same of the drive itself
    DriveRefused = 8,
    // a ring over no places
    NoPlaces = 9,
    // a frame that is too short or too long
    FrameLength = 10,
    // a frame whose first or last byte is wrong
    FrameEnds = 11,
    // a frame whose check digits differ
    FrameCheck = 12,
    // a frame for another address
    OtherAddress = 13,
    // a frame with an unknown letter, or with wrong data
    BadCommand = 14,
    // a reply buffer that is too short
    ReplyRoom = 15,
}

impl Fault {
    // The number that operators and hosts know the refusal by. No other refusal has it.
    pub fn number(&self) -> u8
        ensures value { result ≡ number_of self.now }
        ensures alone { (f : Fault) → number_of f ≡ result → f ≡ self.now }
    {
        *self as u8
    }

    // By hand, since a derived Debug, which prints the same, has no text that a contract can state.
    fn name(&self) -> &'static str
        ensures { result.now ≡ name_of self.now }
    {
        match self {
            Fault::OutOfRange => "OutOfRange",
            Fault::Inconsistent => "Inconsistent",
            Fault::NotAtRest => "NotAtRest",
            Fault::NoRecipe => "NoRecipe",
            Fault::BadAddress => "BadAddress",
            Fault::TotalsFull => "TotalsFull",
            Fault::AtRest => "AtRest",
            Fault::DriveRefused => "DriveRefused",
            Fault::NoPlaces => "NoPlaces",
            Fault::FrameLength => "FrameLength",
            Fault::FrameEnds => "FrameEnds",
            Fault::FrameCheck => "FrameCheck",
            Fault::OtherAddress => "OtherAddress",
            Fault::BadCommand => "BadCommand",
            Fault::ReplyRoom => "ReplyRoom",
        }
    }
}

// The number and the name, as on "fault 8: DriveRefused".
impl fmt::Display for Fault {
    ghost output = { λ f. Some (text_of f) };

    fn fmt<W: fmt::Write>(&self, f: &mut fmt::Formatter<W>) -> fmt::Result {
        let number = self.number();
        let name = self.name();
        write!(f, "fault {number}: {name}")
    }
}

impl Error for Fault {}
