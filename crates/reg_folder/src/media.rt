//! The media types of files, by their endings.
ghost use Rattle.std.specs.Prelude.{◌≡◌};
ghost use Rattle.reg_folder.specs.Media.{data_media_of, dotted_after, is_dotted, media_of};

/// The media type (RFC 9110 section 8.3) of the file at a path, by its ending as it stands there.
pub(crate) fn media_of(path: &str) -> &'static str
    ensures { result.now ≡ media_of path.now }
{
    let path = path.as_bytes();
    if path.ends_with(b".html".as_slice()) {
        "text/html; charset=utf-8"
    } else if path.ends_with(b".css".as_slice()) {
        "text/css; charset=utf-8"
    } else if path.ends_with(b".js".as_slice()) {
        "text/javascript; charset=utf-8"
    } else if path.ends_with(b".csv".as_slice()) {
        "text/csv; charset=utf-8"
    } else if path.ends_with(b".txt".as_slice()) || path.ends_with(b".md".as_slice()) {
        "text/plain; charset=utf-8"
    } else if path.ends_with(b".svg".as_slice()) {
        "image/svg+xml"
    } else if path.ends_with(b".png".as_slice()) {
        "image/png"
    } else {
        data_media_of(path)
    }
}

// The same of a file that is none for people.
fn data_media_of(path: &[u8]) -> &'static str
    ensures { result.now ≡ data_media_of path.now }
{
    if path.ends_with(b".json".as_slice()) {
        "application/json"
    } else if path.ends_with(b".xml".as_slice()) {
        "application/xml"
    } else if path.ends_with(b".atom".as_slice()) {
        "application/atom+xml"
    } else if path.ends_with(b".yaml".as_slice()) {
        "application/yaml"
    } else if is_dotted(path) {
        "application/octet-stream"
    } else {
        "text/plain; charset=utf-8"
    }
}

// Whether a dot stands behind the last slash.
fn is_dotted(path: &[u8]) -> bool
    ensures { result ≡ is_dotted path.now }
{
    path.iter()
        .fold(false, |dotted, byte| dotted_after(dotted, *byte))
}

// Whether one stands there with this byte more.
fn dotted_after(dotted: bool, byte: u8) -> bool
    ensures { result ≡ dotted_after dotted byte }
{
    byte != b'/' && (dotted || byte == b'.')
}
