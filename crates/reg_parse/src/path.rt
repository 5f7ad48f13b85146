//! The segments of a path.
ghost use Rattle.std.specs.Prelude.{◌≡◌, option_map, position, slice_get};
ghost use Rattle.reg_parse.specs.Path.{segments, has_empty_segment, stands_for, segment_named};

use reg_core::item::Segment;

/// The segment of a path at the place where its pattern names this part, as `{reference}` in
/// `/requests/{reference}`.
pub fn segment<'p>(pattern: &str, path: &'p str, part: Segment) -> Option<&'p str>
    ensures { option_map (λ s. s.now) result ≡ segment_named part pattern.now path.now }
{
    let place = place_of(pattern, part)?;
    segment_at(path, place)
}

/// Whether nothing stands between a slash and the next one, or the end.
pub fn has_empty_segment(path: &str) -> bool
    ensures { result ≡ has_empty_segment path.now }
{
    path.split('/').skip(1).any(|segment| segment.is_empty())
}

fn segment_at(path: &str, place: usize) -> Option<&str>
    ensures { option_map (λ s. s.now) result ≡ slice_get (segments path.now) place }
{
    path.split('/').nth(place)
}

// The place of the segment of a pattern that stands for this part.
fn place_of(pattern: &str, part: Segment) -> Option<usize>
    ensures { result ≡ position (stands_for part) (segments pattern.now) }
{
    pattern
        .split('/')
        .position(|segment| stands_for(segment, part))
}

fn stands_for(segment: &str, part: Segment) -> bool
    ensures { result ≡ stands_for part segment.now }
{
    let Some(rest) = segment.strip_prefix('{') else {
        return false;
    };
    match rest.strip_suffix('}') {
        Some(name) => name == part.name(),
        None => false,
    }
}
