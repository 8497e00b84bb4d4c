// The worked cases of the pages: proved of the definitions, and run as tests.
#![tactic(auto)]

ghost use Rattle.std.specs.Prelude.{◌<◌};
ghost use Rattle.rows.specs.Limits.{channels};

#[cfg(test)]
mod clock_tests;
pub mod lent;
pub mod silent;
pub mod worked;

#[cfg(test)]
mod tests {
    use clocks::bank::Bank;
    use clocks::joined::Joined;
    use clocks::reference::Reference;
    use clocks::single::Single;
    use listing::listing;
    use rows::channel::Channel;
    use rows::pair::Pair;
    use rows::refusal::Refusal;
    use rows::row::Row;
    use runs::command::Command;
    use schedule::encoder::encode;
    use schedule::reader::read;
    use std::alloc::Global;
    use std::test::Fail;

    type Two = Joined<Single<Reference>, Single<Reference>>;

    type Ten = Joined<Joined<Joined<Two, Two>, Joined<Two, Two>>, Two>;

    // Each literal is proved in range at its call; a `Channel` would be made of the same literal.
    fn reference(channel: u8) -> Single<Reference>
        requires { channel < channels }
    {
        Single::new(Reference::new(channel).unwrap())
    }

    // References on channels 0 and 3.
    fn two() -> Two {
        Joined::new(reference(0), reference(3))
    }

    fn ten() -> Ten {
        let first = Joined::new(two(), two());
        let second = Joined::new(two(), two());
        Joined::new(Joined::new(first, second), two())
    }

    // The listing of some bytes over the clocks is this text.
    fn shows_over<B: Bank + Drop>(
        heap: Global,
        clocks: B,
        bytes: &[u8],
        text: &str,
    ) -> Result<(), Fail> {
        let found = listing(heap, clocks, bytes)?;
        if found.as_str() == text {
            Ok(())
        } else {
            Err(Fail::new(found))
        }
    }

    fn shows(heap: Global, bytes: &[u8], text: &str) -> Result<(), Fail> {
        shows_over(heap, two(), bytes, text)
    }

    #[test]
    fn unknown_bytes(rt: HostRuntime) -> Result<(), Fail> {
        let heap = rt.alloc();
        shows(heap, b"!", "0 ? 17 33\n")?;
        shows(heap, b"B", "0 ? 17 66\n")?;
        shows(heap, b"II!II", "0 I 0\n1 I 0\n2 ? 17 33\n")?;
        shows(heap, b"", "")
    }

    #[test]
    fn cut_commands(rt: HostRuntime) -> Result<(), Fail> {
        let heap = rt.alloc();
        shows(heap, b"P", "0 P 18 1\n")?;
        shows(
            heap,
            b"IP\x00\x00\x00\x00\x00\x00\x00\x00\x00\x00\x00\x00\x00\x00\x00\x00",
            "0 I 0\n1 P 18 17\n",
        )
    }

    // A file of `count` bytes `I`.
    fn instants(heap: Global, count: usize) -> Result<Vec<u8>, Fail> {
        Ok(vec![in heap; b'I'; count]?)
    }

    #[test]
    fn longest_files(rt: HostRuntime) -> Result<(), Fail> {
        let heap = rt.alloc();
        shows(heap, &instants(heap, 65537)?, "0 - 21\n")?;
        let text = listing(heap, two(), &instants(heap, 65536)?)?;
        assert_eq!(rt; text.as_str().lines().count(), 65536);
        assert!(rt; text.as_str().ends_with("\n65535 I 0\n"));
        Ok(())
    }

    #[test]
    fn refused_pairs(rt: HostRuntime) -> Result<(), Fail> {
        let heap = rt.alloc();
        line_of(heap, 15, 4503599627370495, 0, "0 P 0\n")?;
        line_of(heap, 15, 0, 4503599627370496, "0 P 16\n")?;
        line_of(heap, 15, 18446744073709551615, 0, "0 P 16\n")?;
        line_of(heap, 16, 0, 4503599627370496, "0 P 15\n")?;
        line_of(heap, 255, 100, 110, "0 P 15\n")
    }

    // Setting this pair is answered by this text.
    fn line_of(heap: Global, channel: u8, first: u64, second: u64, text: &str) -> Result<(), Fail> {
        let pair = Pair { first, second };
        let command = Command::Set { channel, pair };
        let mut bytes = Vec::new(heap);
        encode(&command, &mut bytes)?;
        shows(heap, &bytes, text)
    }

    #[test]
    fn queries(rt: HostRuntime) -> Result<(), Fail> {
        let heap = rt.alloc();
        shows(heap, b"N\x00N\x01", "0 N 9 1 0 0\n2 N 9 1 3 0\n")?;
        shows(heap, b"N\x02N\xff", "0 N 3\n2 N 3\n")?;
        shows(heap, b"IN", "0 I 0\n1 N 18 1\n")?;
        shows_over(heap, ten(), b"N\x07N\x08", "0 N 9 1 3 0\n2 N 3\n")
    }

    // A pair is read at its instant only.
    #[test]
    fn a_reading_lasts_one_instant(rt: HostRuntime) -> Result<(), Fail> {
        let heap = rt.alloc();
        shows(
            heap,
            b"P\x03\x00\x00\x00\x00\x00\x00\x00\x64\x00\x00\x00\x00\x00\x00\x00\x6eN\x01IN\x01N\x00IN\x01",
            "0 P 0\n18 N 9 1 3 0\n20 I 0\n21 N 0 100 110\n23 N 9 1 0 0\n25 I 0\n26 N 9 1 3 0\n",
        )
    }

    #[test]
    fn written_and_read_back(rt: HostRuntime) -> Result<(), Fail> {
        let heap = rt.alloc();
        let pair = Pair {
            first: 100,
            second: 110,
        };
        let command = Command::Set { channel: 3, pair };
        let mut bytes = Vec::new(heap);
        encode(&command, &mut bytes)?;
        assert_eq!(rt;
            bytes.as_slice(),
            b"P\x03\x00\x00\x00\x00\x00\x00\x00\x64\x00\x00\x00\x00\x00\x00\x00\x6e".as_slice()
        );
        let mut commands = Vec::new(heap);
        assert_eq!(rt; read(&bytes, &mut commands)?, None);
        assert_eq!(rt; commands.as_slice(), [command].as_slice());
        Ok(())
    }

    // The pair on a channel, if there is such a channel.
    fn pair_on(row: &Row, channel: u8) -> Option<Pair> {
        Some(row.pair(Channel::try_from(channel).ok()?))
    }

    #[test]
    fn one_pair_of_a_row(rt: HostRuntime) {
        let unset = Pair {
            first: 1,
            second: 0,
        };
        let set = Pair {
            first: 100,
            second: 110,
        };
        let mut row = Row::new();
        let late = Pair {
            first: 0,
            second: 4503599627370496,
        };
        assert_eq!(rt; row.set(15, set), Ok(()));
        assert_eq!(rt; row.set(16, set), Err(Refusal::NoChannel));
        assert_eq!(rt; row.set(15, late), Err(Refusal::BadPair));
        assert_eq!(rt; pair_on(&row, 15), Some(set));
        assert_eq!(rt; pair_on(&row, 14), Some(unset));
        row.clear();
        assert_eq!(rt; pair_on(&row, 15), Some(unset));
    }
}
