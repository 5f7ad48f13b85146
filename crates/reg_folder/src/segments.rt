//! The segments of a path.
ghost use Rattle.std.specs.Prelude.{◌≡◌, nat_eq};
ghost use Rattle.std.specs.List.{list_all};
ghost use Rattle.reg_folder.specs.Path.{is_name, is_name_byte, is_path};

/// Whether a path names a file below a folder: each segment is a name.
pub(crate) fn is_path(path: &str) -> bool
    ensures { result ≡ is_path path.now }
{
    path.split('/').all(|segment| is_name(segment.as_bytes()))
}

// Whether a segment is a name: one or more of its bytes, the first of which is no dot.
fn is_name(segment: &[u8]) -> bool
    ensures { result ≡ is_name segment.now }
{
    !segment.is_empty() && !segment.starts_with(b".".as_slice()) && are_name_bytes(segment)
}

fn are_name_bytes(segment: &[u8]) -> bool
    ensures { result ≡ list_all is_name_byte segment.now }
{
    segment.iter().all(|byte| is_name_byte(*byte))
}

fn is_name_byte(byte: u8) -> bool
    ensures { result ≡ is_name_byte byte }
{
    byte.is_ascii_alphanumeric() || byte == b'.' || byte == b'_' || byte == b'-'
}
