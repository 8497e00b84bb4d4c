// The text of some lines.
ghost use Rattle.std.specs.Prelude.{◌≡◌, IfOk, string_bytes};
ghost use Rattle.listing.specs.Lines.{listing_text};

use crate::line::Line;
use std::alloc::{AllocError, Global};

pub(crate) fn text_of(heap: Global, lines: &[Line]) -> Result<String, AllocError>
    ensures { IfOk result (λ s. string_bytes s ≡ listing_text lines.now) }
{
    let mut text = String::new(heap);
    for line in lines {
        writeln!(text, "{line}")?;
    }
    Ok(text)
}
