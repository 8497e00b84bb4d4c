// Why a command is turned away, with its number and its details.
ghost use Rattle.std.specs.Prelude.{◌≡◌};
ghost use Rattle.rows.specs.Details.{values};
ghost use Rattle.rows.specs.declared.refusal.Refusal.TheVariants.{Clock};
ghost use Rattle.rows.specs.Refusals.{number_of, details_of};

use crate::details::Details;
use crate::fault::Fault;

#[derive(Clone, Copy, PartialEq, Eq, Debug)]
pub enum Refusal {
    NoShard,
    Clock { fault: Fault },
    NoChannel,
    BadPair,
    Unknown { byte: u8 },
    Cut { left: usize },
    BadRate,
    Long,
}

// So that `?` carries a clock's fault up to the line.
impl From<Fault> for Refusal {
    ghost from_gives = { λ fault refusal. refusal ≡ Clock fault };

    fn from(fault: Fault) -> Refusal {
        Refusal::Clock { fault }
    }
}

impl Refusal {
    // A name says which number, as `u8::from` would not.
    pub fn number(self) -> u8
        ensures { result ≡ number_of self }
    {
        match self {
            Refusal::NoShard => 3,
            Refusal::Clock { .. } => 9,
            Refusal::NoChannel => 15,
            Refusal::BadPair => 16,
            Refusal::Unknown { .. } => 17,
            Refusal::Cut { .. } => 18,
            Refusal::BadRate => 19,
            Refusal::Long => 21,
        }
    }

    // What stands behind the number: a part of what it says, so no `From`.
    pub fn details(self) -> Details
        ensures { values result ≡ details_of self }
    {
        match self {
            Refusal::Unknown { byte } => Details::One(u64::from(byte)),
            Refusal::Cut { left } => Details::One(left as u64),
            Refusal::Clock { fault } => Details::Three(
                u64::from(fault.cause.number()),
                u64::from(fault.place),
                u64::from(fault.depth),
            ),
            Refusal::NoShard
            | Refusal::NoChannel
            | Refusal::BadPair
            | Refusal::BadRate
            | Refusal::Long => Details::Empty,
        }
    }
}
