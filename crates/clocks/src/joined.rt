// Two banks in one: the first's members, then the second's.
ghost use Rattle.std.specs.Prelude.{◌≤◌};
ghost use Rattle.rows.specs.Limits.{most_members};

mod members;

#[derive(Drop)]
pub struct Joined<A, B> {
    first: A,
    second: B,
    // How many members the first has; kept with the count of both, so that a look-up adds nothing up.
    split: u8,
    count: u8,
    ghost some: { 1 ≤ count },
    ghost few: { count ≤ most_members },
}
