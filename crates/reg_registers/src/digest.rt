//! Tokens and their digests.
ghost use Rattle.std.specs.Prelude.{◌≡◌, true};
ghost use Rattle.std.specs.Option.{option_copied};
ghost use Rattle.hex.specs.Hex.{encode_lower};
ghost use Rattle.reg_core.specs.Names.{is_digest};
ghost use Rattle.reg_registers.specs.Caller.{token_digest, caller_of as caller};

use reg_core::text::{Digest, Form, TokenForm};
use sha2::{Digest as _, Sha256};

/// The digest of a token: its SHA-256 in lower-case hexadecimal.
pub fn digest_of(token: &[u8]) -> Digest
    ensures value { result ≡ token_digest token.now }
    ensures form { is_digest (token_digest token.now) ≡ true }
{
    let hash: [u8; 32] = Sha256::digest(token);
    digest_text(&hash)
}

fn digest_text(hash: &[u8; 32]) -> Digest
    requires { is_digest (encode_lower hash.now) ≡ true }
    ensures { result ≡ encode_lower hash.now }
{
    let mut digits = [0; 64];
    hex::encode_to_slice(hash.as_slice(), &mut digits).unwrap();
    Digest::read(&digits).unwrap()
}

/// Who calls with this token: nobody where there is none, or where it has not a token's form.
pub fn caller_of(token: Option<&[u8]>) -> Option<Digest>
    ensures { result ≡ caller (option_copied token.entry) }
{
    match token {
        Some(token) if TokenForm::accepts(token) => Some(digest_of(token)),
        _ => None,
    }
}
