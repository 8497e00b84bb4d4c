// Why a file is read no further.
ghost use Rattle.std.specs.Prelude.{◌≡◌};
ghost use Rattle.schedule.specs.Stops.{shown_letter, refusal_of};

use rows::refusal::Refusal;

#[derive(Clone, Copy, PartialEq, Eq, Debug)]
pub enum Stop {
    // No command has this letter.
    NotALetter { byte: u8 },
    // Fewer bytes are left than the command's width; they count its letter.
    // A byte: a narrower type for the letter would ask more of callers.
    CutShort { letter: u8, left: usize },
    // The file has more bytes than a file may have.
    TooLong,
}

impl Stop {
    // What stands in the letter's place on the line: a name says so, as `u8::from` would not.
    pub fn shown_letter(self) -> u8
        ensures { result ≡ shown_letter self }
    {
        match self {
            Stop::NotALetter { .. } => b'?',
            Stop::CutShort { letter, .. } => letter,
            Stop::TooLong => b'-',
        }
    }
}

// A stop is shown as the refusal of the command that could not be read.
impl From<Stop> for Refusal {
    ghost from_gives = { λ stop refusal. refusal ≡ refusal_of stop };

    fn from(stop: Stop) -> Refusal {
        match stop {
            Stop::NotALetter { byte } => Refusal::Unknown { byte },
            Stop::CutShort { left, .. } => Refusal::Cut { left },
            Stop::TooLong => Refusal::Long,
        }
    }
}
