// One line of a listing, and its text.
ghost use Rattle.std.specs.Prelude.{◌≡◌, Some};
ghost use Rattle.listing.specs.Lines.{line_text, event_line, stop_line};

use runs::event::{Event, Outcome, outcome_details, outcome_number};
use schedule::form::form_of;
use schedule::stop::Stop;
use std::fmt;

#[derive(Clone, Copy, PartialEq, Eq, Debug)]
pub struct Line {
    // Bytes before the command.
    pub offset: usize,
    // A byte of the table, `?` or `-`: all are ASCII, and only the text needs a character.
    pub letter: u8,
    pub outcome: Outcome,
}

impl Line {
    pub(crate) fn of_event(offset: usize, event: &Event) -> Line
        ensures { result ≡ event_line offset event.now }
    {
        Line {
            offset,
            letter: form_of(&event.command).letter,
            outcome: event.outcome,
        }
    }

    pub(crate) fn of_stop(offset: usize, stop: Stop) -> Line
        ensures { result ≡ stop_line offset stop }
    {
        Line {
            offset,
            letter: stop.shown_letter(),
            outcome: Err(stop.into()),
        }
    }
}

impl fmt::Display for Line {
    ghost output = { λ l. Some (line_text l) };

    fn fmt<W: fmt::Write>(&self, f: &mut fmt::Formatter<W>) -> fmt::Result {
        let offset = self.offset;
        let letter = char::from(self.letter);
        let number = outcome_number(self.outcome);
        let details = outcome_details(self.outcome);
        write!(f, "{offset} {letter} {number}{details}")
    }
}
