//! Texts that are read from the front on.
ghost use Rattle.std.specs.Prelude.{◌≡◌, ◌++◌, IfSome, option_map};
ghost use Rattle.std.specs.Option.{option_copied};
ghost use Rattle.reg_print.specs.Comparing.{Leaves, behind, until};

/// What is left of a text behind this front, if the text begins with it.
pub fn behind<'a>(front: &[u8], text: &'a [u8]) -> Option<&'a [u8]>
    ensures value { option_copied result ≡ behind front.now text.now }
    ensures leaves { Leaves front.now text.now result }
{
    text.strip_prefix(front)
}

/// A text before the first such byte, and from it on; none where it has no such byte.
pub fn until(byte: u8, text: &[u8]) -> Option<(&[u8], &[u8])>
    ensures value { option_map (λ parts. (parts.0.now, parts.1.now)) result ≡ until byte text.now }
    ensures whole { IfSome result (λ parts. text.now ≡ parts.0.now ++ parts.1.now) }
{
    let end = text.iter().position(|other| *other == byte)?;
    Some(text.split_at(end))
}
