// Why a clock has no reading.
ghost use Rattle.std.specs.Prelude.{◌≡◌};
ghost use Rattle.rows.specs.Faults.{cause_number, arising, deeper};

#[derive(Clone, Copy, PartialEq, Eq, Debug)]
pub enum Cause {
    // No heard pair on the channel, or no such member of a bank.
    Unheard = 1,
    // Too few members of a fuse share a time.
    TooFew = 2,
    // A reading ended before the hull's kept time.
    Crossed = 3,
}

impl Cause {
    // Its number on a line.
    pub fn number(self) -> u8
        ensures { result ≡ cause_number self }
    {
        self as u8
    }
}

// A plain record by a rule of the project: a line shows all three of every fault.
#[derive(Clone, Copy, PartialEq, Eq, Debug)]
pub struct Fault {
    pub cause: Cause,
    pub place: u8,
    // How many layers it has risen through, at most 255.
    pub depth: u8,
}

impl Fault {
    // The fault where it arises.
    pub fn new(cause: Cause, place: u8) -> Fault
        ensures { result ≡ arising cause place }
    {
        Fault {
            cause,
            place,
            depth: 0,
        }
    }

    // The fault as the layer above has it.
    pub fn deeper(self) -> Fault
        ensures { result ≡ deeper self }
    {
        Fault {
            depth: self.depth.saturating_add(1),
            ..self
        }
    }
}
