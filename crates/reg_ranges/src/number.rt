//! Numbers as decimal texts.
ghost use Rattle.std.specs.Prelude.{◌≡◌, true, Some, None, nat_lt, ◌^◌, if◌then◌else◌};
ghost use Rattle.std.specs.Char.{is_ascii_digit};
ghost use Rattle.std.specs.List.{list_all};
ghost use Rattle.std.specs.Str.Parse.{digits_value};
ghost use Rattle.reg_ranges.specs.Numbers.{has_leading_zero, is_numeral, read_number};

/// The number that these bytes write: decimal digits, 0 to 4294967295, with no leading zero except
/// in `0` itself.
pub fn read_number(digits: &[u8]) -> Option<u32>
    ensures { result ≡ read_number digits.now }
{
    if !is_numeral(digits) {
        return None;
    }
    parsed(digits)
}

fn is_numeral(digits: &[u8]) -> bool
    ensures { result ≡ is_numeral digits.now }
{
    !digits.is_empty() && !has_leading_zero(digits) && are_digits(digits)
}

fn has_leading_zero(digits: &[u8]) -> bool
    ensures { result ≡ has_leading_zero digits.now }
{
    matches!(digits, [b'0', _, ..])
}

fn are_digits(bytes: &[u8]) -> bool
    ensures { result ≡ list_all is_ascii_digit bytes.now }
{
    bytes.iter().all(|b| b.is_ascii_digit())
}

fn parsed(digits: &[u8]) -> Option<u32>
    requires { is_numeral digits.now ≡ true }
    ensures { result
        ≡ (if nat_lt (digits_value 10 digits.now) (2 ^ 32) then Some (digits_value 10 digits.now)
        else None) }
{
    str::from_utf8(digits).unwrap().parse().ok()
}
