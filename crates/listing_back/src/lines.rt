//! The lines of a listing.

ghost use Rattle.std.specs.Prelude.{◌≡◌, IfOk};
ghost use Rattle.serde_json.specs.View.{view, items_view};
ghost use Rattle.listing_back.specs.Listings.{line_in, lines_in};

use crate::members::{count_at, flag_at, kind_of, number_at, text_at};
use backup_rules::Line;
use office_model::LineList;
use serde_json::Value;
use std::alloc::{AllocError, Global};

/// The line of a backup that an object is.
fn line_in(value: &Value) -> Option<Line>
    ensures { result ≡ line_in (view value.now) }
{
    Some(Line {
        number: number_at(value, "number")?,
        start: count_at(value, "start")?,
        end: count_at(value, "end")?,
        kind: kind_of(text_at(value, "kind")?)?,
        filled: flag_at(value, "filled")?,
        keep: flag_at(value, "keep")?,
    })
}

/// The lines that these values are, if each is one.
pub(crate) fn lines_in(alloc: Global, values: &[Value]) -> Result<Option<LineList>, AllocError>
    ensures { IfOk result (λ lines. lines ≡ lines_in (items_view values.now)) }
{
    let mut lines = LineList::new(alloc);
    for value in values {
        let Some(line) = line_in(value) else {
            return Ok(None);
        };
        lines.push(line)?;
    }
    Ok(Some(lines))
}
