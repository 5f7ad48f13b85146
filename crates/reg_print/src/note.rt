//! The notes of ranges, as they are shown.
ghost use Rattle.std.specs.Prelude.{◌≡◌, [], unwrap_or};

use reg_ranges::text::Text;

/// The text of a note, which is empty where there is none.
pub fn note_text(note: &Option<Text>) -> &str
    ensures { result.now ≡ unwrap_or note.now [] }
{
    match note {
        Some(note) => note.as_str(),
        None => "",
    }
}
