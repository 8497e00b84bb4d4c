// The lines of a run.
ghost use Rattle.std.specs.Prelude.{◌≡◌, ◌+◌, ◌^◌, ◌<◌, List, length, MatchResult};
ghost use Rattle.rows.specs.Lent.{Added, NoRoom};
ghost use Rattle.schedule.specs.Encoding.{form_of};
ghost use Rattle.listing.specs.Lines.{InOrder};

use crate::line::Line;
use runs::event::Event;
use schedule::form::form_of;
use schedule::stop::Stop;
use std::alloc::AllocError;

// Adds a line for each event, and one where reading stopped.
pub fn add_lines(
    events: &[Event],
    stop: Option<Stop>,
    lines: &mut Vec<Line>,
) -> Result<(), AllocError>
    ensures { MatchResult result (λ _. (new : List Line) × Added lines.old new lines.new × InOrder events.now stop new) (λ _. NoRoom lines.old (length events.now + 1) lines.new) }
{
    lines.reserve(events.len() + 1)?;
    let mut offset = 0;
    for event in events {
        lines.push_reserved(Line::of_event(offset, event));
        offset += form_of(&event.command).width;
    }
    if let Some(stop) = stop {
        lines.push_reserved(Line::of_stop(offset, stop));
    }
    Ok(())
}
