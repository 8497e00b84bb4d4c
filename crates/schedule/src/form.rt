// The table of command letters, each with its command's width in bytes.
ghost use Rattle.std.specs.Prelude.{◌≡◌};
ghost use Rattle.schedule.specs.Encoding.{width_of, form_of};

use runs::command::Command;

#[derive(Clone, Copy)]
pub struct Form {
    // A byte by a rule of the project: the table has the letters as a file has them.
    pub letter: u8,
    // The letter included.
    pub width: usize,
}

const SET: Form = Form {
    letter: b'P',
    width: 18,
};

const INSTANT: Form = Form {
    letter: b'I',
    width: 1,
};

const QUERY: Form = Form {
    letter: b'N',
    width: 2,
};

// A table by a rule of the project, in which the reader looks a letter up.
const FORMS: [Form; 3] = [SET, INSTANT, QUERY];

pub fn form_of(command: &Command) -> Form
    ensures { result ≡ form_of command.now }
{
    match command {
        Command::Set { .. } => SET,
        Command::Instant => INSTANT,
        Command::Query { .. } => QUERY,
    }
}

pub(crate) fn width_of(letter: u8) -> Option<usize>
    ensures { result ≡ width_of letter }
{
    FORMS
        .iter()
        .find(|form| form.letter == letter)
        .map(|form| form.width)
}
