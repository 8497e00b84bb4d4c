// The readings that the members of a bank have, by where they begin and where they end.
ghost use Rattle.std.specs.Prelude.{◌≡◌, [], map};
ghost use Rattle.fuses.specs.Fuses.{members};
ghost use Rattle.fuses.specs.Sharing.{intervals_of};

use arrayvec::ArrayVec;
use clocks::bank::Bank;

// As many as a bank has at most, so that an instant needs no memory from outside.
const MOST_MEMBERS: usize = 255;

pub(super) type Times = ArrayVec<u64, MOST_MEMBERS>;

// Each member is asked once, by its number. Begins and ends are two vectors, since each is sorted by itself;
// both are lent, so that neither is moved.
pub(super) fn gather<B: Bank>(bank: &B, begins: &mut Times, ends: &mut Times)
    requires no_begins { begins.old.items ≡ [] }
    requires no_ends { ends.old.items ≡ [] }
    ensures begins { begins.new.items ≡ map (λ i. i.earliest) (intervals_of (members B.Bank bank.now)) }
    ensures ends { ends.new.items ≡ map (λ i. i.latest) (intervals_of (members B.Bank bank.now)) }
{
    for member in 0..bank.count() {
        let Ok(reading) = bank.query(member) else {
            continue;
        };
        begins.push(reading.earliest);
        ends.push(reading.latest);
    }
}
