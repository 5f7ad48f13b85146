//! The names that the office goes by: accounts, references, registry names, tokens and their
//! digests. A name is kept in place, in as many bytes as the longest of its form: it is copied without
//! memory.
ghost use Rattle.std.specs.Prelude.{◌≡◌, ◌≤◌, ⊤, ℕ, Bool, true, nat_eq, List, Some, length, refl};
ghost use Rattle.std.specs.Cmp.{partial_equiv_from_equiv};
ghost use Rattle.std.specs.Cmp.Lexicographic.{slice_cmp, pointwise, nat_list_cmp_total, nat_list_eq_equiv, texts_po, texts_ties};
ghost use Rattle.std.specs.Ordering.{nat_cmp};
ghost use Rattle.std.specs.List.{list_all};
ghost use Rattle.std.specs.Str.{IsAscii};
ghost use Rattle.reg_ranges.specs.Texts.{read_text};
ghost use Rattle.reg_core.specs.Names.{is_name_byte as name_byte, is_token_byte as token_byte, is_digest_byte as digest_byte, is_name as name, is_token, is_digest, is_digits, is_first_digits, first_digits as digits_of, ascii_name, ascii_token, ascii_digest, ascii_digits, ascii_first_digits, in_place, short_name, short_token, short_digest, short_digits, short_first_digits, counted_name, counted_token, counted_digest, counted_first_digits};

use reg_ranges::formed::Formed;
pub use reg_ranges::text::Text;
use std::alloc::AllocError;
use std::cmp::Ordering;
use std::marker::{Model, PhantomData};
use std::str;

/// The most bytes of an account, a reference or a registry's name; the least is one.
pub const MOST_NAME_BYTES: usize = 32;

/// The least bytes of a token.
pub const LEAST_TOKEN_BYTES: usize = 16;

/// The most bytes of a token.
pub const MOST_TOKEN_BYTES: usize = 64;

/// The bytes of a digest.
pub const DIGEST_BYTES: usize = 64;

/// The fewest digits of a digest by which a clerk names a token.
pub const LEAST_DIGITS: usize = 8;

/// The first digits of a digest by which the journal names a token.
pub const FIRST_DIGITS: usize = 12;

/// Which bytes a kind of name may have, which are at most `N`.
pub trait Form<const N: usize> {
    /// The names of this form.
    ghost fits: { List ℕ → Bool };

    /// Whether the bytes are a name of this form.
    fn accepts(bytes: &[u8]) -> bool
        ensures { result ≡ fits bytes.now };

    /// They are ASCII.
    ghost ascii: { (s : List ℕ) → fits s ≡ true → IsAscii s };

    /// They are at most `N` bytes.
    ghost short: { (s : List ℕ) → fits s ≡ true → length s ≤ N };

    /// One byte counts them.
    ghost counted: { N ≤ 255 };
}

/// A name of the form `F`, kept in place.
pub struct Word<F: Form<N>, const N: usize> {
    // The bytes, and zeros after them.
    place: [u8; N],
    len: u8,
    form: PhantomData<F>,
}

impl<F: Form<N>, const N: usize> Model for Word<F, N> {
    ghost use Rattle.std.specs.Prelude.{◌≡◌, List, ℕ, true, length, take};
    ghost use Rattle.reg_core.specs.Names.{in_place};

    ghost Value = { List ℕ };

    ghost view = { λ w. take w.len w.place };

    ghost invariant = { λ w. (in_place N (take w.len w.place) ≡ w.place)
        × (length (take w.len w.place) ≡ w.len)
        × (F.fits (take w.len w.place) ≡ true) };

    ghost inverse = { λ s. record { place = in_place N s; len = length s; form = record {} } };

    ghost inverse_ok = { λ w h i. record { place = h.0 i; len = h.1 i; form = record {} } };
}

// Not derived: a name is copied whatever its form is, which has no value.
impl<F: Form<N>, const N: usize> Clone for Word<F, N> {
    ghost is_clone = { λ word copy. copy ≡ word };

    ghost is_infallible = { λ _. ⊤ };

    fn clone(&self) -> Result<Self, AllocError> {
        Ok(Word {
            place: self.place,
            len: self.len,
            form: PhantomData,
        })
    }
}

impl<F: Form<N>, const N: usize> Copy for Word<F, N> {}

impl<F: Form<N>, const N: usize> Word<F, N> {
    /// The name of these bytes; none where they have not the form.
    pub fn read(bytes: &[u8]) -> Option<Self>
        ensures { result ≡ read_text F.fits bytes.now }
    {
        if !F::accepts(bytes) {
            return None;
        }
        Some(Word {
            place: in_place(bytes),
            len: bytes.len() as u8,
            form: PhantomData,
        })
    }

    /// The name, in its form.
    pub fn as_str(&self) -> &str
        ensures text { result.now ≡ self.now }
        ensures form { F.fits self.now ≡ true }
    {
        str::from_utf8(self.as_bytes()).unwrap()
    }

    fn as_bytes(&self) -> &[u8]
        ensures bytes { result.now ≡ self.now }
        ensures form { F.fits self.now ≡ true }
        ensures ascii { IsAscii self.now }
    {
        &self.place[..self.len as usize]
    }
}

impl<F: Form<N>, const N: usize> Formed for Word<F, N> {
    ghost has_form = { F.fits };

    fn formed(&self) {
        let _ = &self.len;
    }
}

// The bytes in `N`, with zeros after them.
fn in_place<const N: usize>(bytes: &[u8]) -> [u8; N]
    requires { length bytes.now ≤ N }
    ensures { result ≡ in_place N bytes.now }
{
    let mut place = [0; N];
    place[..bytes.len()].copy_from_slice(bytes);
    place
}

impl<F: Form<N>, const N: usize> PartialEq for Word<F, N> {
    ghost eq = { pointwise nat_eq };

    ghost laws = { partial_equiv_from_equiv nat_list_eq_equiv };

    fn eq(&self, other: &Self) -> bool {
        self.as_bytes() == other.as_bytes()
    }
}

impl<F: Form<N>, const N: usize> Eq for Word<F, N> {
    ghost laws = { nat_list_eq_equiv };
}

impl<F: Form<N>, const N: usize> PartialOrd for Word<F, N> {
    ghost partial_cmp = { λ x y. Some (slice_cmp nat_cmp x y) };

    ghost laws = { texts_po };

    fn partial_cmp(&self, other: &Self) -> Option<Ordering> {
        Some(self.cmp(other))
    }
}

impl<F: Form<N>, const N: usize> Ord for Word<F, N> {
    ghost cmp = { slice_cmp nat_cmp };

    ghost total = { nat_list_cmp_total };

    ghost matches_partial_cmp = { λ x y. refl };

    ghost matches_eq = { texts_ties };

    fn cmp(&self, other: &Self) -> Ordering {
        self.as_bytes().cmp(other.as_bytes())
    }
}

/// 1 to 32 of `a` to `z`, `0` to `9` and `-`: what things of the kind `T` are called.
pub struct NameForm<T> {
    kind: PhantomData<T>,
}

impl<T> Form<MOST_NAME_BYTES> for NameForm<T> {
    ghost fits = { name };

    ghost ascii = { ascii_name };

    ghost short = { short_name };

    ghost counted = { counted_name };

    fn accepts(bytes: &[u8]) -> bool {
        is_name(bytes)
    }
}

/// Whose capability, request or entry it is.
pub struct AccountKind;

/// The applicant's own word for a request.
pub struct RefKind;

/// What a registry is called.
pub struct RegistryKind;

/// 16 to 64 of letters, digits, `-`, `.`, `_` and `~`: a bearer token (RFC 6750 section 2.1,
/// narrowed).
pub struct TokenForm;

impl Form<MOST_TOKEN_BYTES> for TokenForm {
    ghost fits = { is_token };

    ghost ascii = { ascii_token };

    ghost short = { short_token };

    ghost counted = { counted_token };

    fn accepts(bytes: &[u8]) -> bool {
        (LEAST_TOKEN_BYTES..=MOST_TOKEN_BYTES).contains(&bytes.len()) && all_token_bytes(bytes)
    }
}

/// 64 lower-case hexadecimal digits: what the office keeps of a token.
pub struct DigestForm;

impl Form<DIGEST_BYTES> for DigestForm {
    ghost fits = { is_digest };

    ghost ascii = { ascii_digest };

    ghost short = { short_digest };

    ghost counted = { counted_digest };

    fn accepts(bytes: &[u8]) -> bool {
        bytes.len() == DIGEST_BYTES && all_digest_bytes(bytes)
    }
}

/// 8 to 64 lower-case hexadecimal digits: the first of a digest, by which a clerk names a token.
pub struct DigitsForm;

impl Form<DIGEST_BYTES> for DigitsForm {
    ghost fits = { is_digits };

    ghost ascii = { ascii_digits };

    ghost short = { short_digits };

    ghost counted = { counted_digest };

    fn accepts(bytes: &[u8]) -> bool {
        (LEAST_DIGITS..=DIGEST_BYTES).contains(&bytes.len()) && all_digest_bytes(bytes)
    }
}

/// 12 lower-case hexadecimal digits: the first of a digest, by which the journal names a token.
pub struct FirstDigitsForm;

impl Form<FIRST_DIGITS> for FirstDigitsForm {
    ghost fits = { is_first_digits };

    ghost ascii = { ascii_first_digits };

    ghost short = { short_first_digits };

    ghost counted = { counted_first_digits };

    fn accepts(bytes: &[u8]) -> bool {
        bytes.len() == FIRST_DIGITS && all_digest_bytes(bytes)
    }
}

/// An applicant's, an expert's or a clerk's account.
pub type Account = Word<NameForm<AccountKind>, MOST_NAME_BYTES>;

/// The reference under which an applicant files a request.
pub type Ref = Word<NameForm<RefKind>, MOST_NAME_BYTES>;

/// The name of a registry.
pub type Name = Word<NameForm<RegistryKind>, MOST_NAME_BYTES>;

/// A bearer token.
pub type Token = Word<TokenForm, MOST_TOKEN_BYTES>;

/// The digest of a token.
pub type Digest = Word<DigestForm, DIGEST_BYTES>;

/// The first digits of a token's digest.
pub type Digits = Word<DigitsForm, DIGEST_BYTES>;

/// The first 12 digits of a token's digest.
pub type FirstDigits = Word<FirstDigitsForm, FIRST_DIGITS>;

/// The first digits of a digest.
pub fn first_digits(digest: &Digest) -> FirstDigits
    ensures { result ≡ digits_of digest.now }
{
    FirstDigits::read(&digest.as_bytes()[..FIRST_DIGITS]).unwrap()
}

fn is_name(bytes: &[u8]) -> bool
    ensures { result ≡ name bytes.now }
{
    (1..=MOST_NAME_BYTES).contains(&bytes.len()) && all_name_bytes(bytes)
}

fn all_name_bytes(bytes: &[u8]) -> bool
    ensures { result ≡ list_all name_byte bytes.now }
{
    bytes.iter().all(|b| is_name_byte(*b))
}

fn is_name_byte(b: u8) -> bool
    ensures { result ≡ name_byte b }
{
    matches!(b, b'a'..=b'z' | b'0'..=b'9' | b'-')
}

fn all_token_bytes(bytes: &[u8]) -> bool
    ensures { result ≡ list_all token_byte bytes.now }
{
    bytes.iter().all(|b| is_token_byte(*b))
}

fn is_token_byte(b: u8) -> bool
    ensures { result ≡ token_byte b }
{
    matches!(b, b'a'..=b'z' | b'A'..=b'Z' | b'0'..=b'9' | b'-' | b'.' | b'_' | b'~')
}

fn all_digest_bytes(bytes: &[u8]) -> bool
    ensures { result ≡ list_all digest_byte bytes.now }
{
    bytes.iter().all(|b| is_digest_byte(*b))
}

fn is_digest_byte(b: u8) -> bool
    ensures { result ≡ digest_byte b }
{
    matches!(b, b'0'..=b'9' | b'a'..=b'f')
}
