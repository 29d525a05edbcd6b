//! The tests of an archive before its parts are looked at: the header, the digest of what is behind it, the layer.
ghost use Rattle.std.specs.Prelude.{◌≡◌, ◌≤◌, drop, length};
ghost use Rattle.archive_mapper.specs.Fronts as spec;
ghost use Rattle.archive_mapper.specs.Mapping.{body_digest};

use archive_header::{Header, Refuse, read_header};
use sha2::{Digest, Sha256};

/// The bytes behind the header.
pub(crate) fn body(bytes: &[u8]) -> &[u8]
    requires { 256 ≤ length bytes.now }
    ensures { result.now ≡ drop 256 bytes.now }
{
    let (_header, body) = bytes.split_at(256);
    body
}

fn digest_of_body(bytes: &[u8]) -> [u8; 32]
    requires { 256 ≤ length bytes.now }
    ensures { result ≡ body_digest bytes.now }
{
    Sha256::digest(body(bytes))
}

#[tactic(auto, unfolding(crate::specs::Fronts::tested))]
fn tested(bytes: &[u8], header: Header) -> Result<Header, Refuse>
    requires { 256 ≤ length bytes.now }
    ensures { result ≡ spec.tested bytes.now header }
{
    let found = digest_of_body(bytes);
    if header.body_digest != found {
        return Err(Refuse::Digest {
            kept: header.body_digest,
            found,
        });
    }
    let no_lower = [0; 32];
    if header.lower != no_lower {
        return Err(Refuse::Layer {
            kept: header.lower,
            found: no_lower,
        });
    }
    Ok(header)
}

/// The header, or the first refusal before `Malformed`.
#[tactic(auto, unfolding(crate::specs::Fronts::front_of))]
pub(crate) fn front(bytes: &[u8]) -> Result<Header, Refuse>
    ensures { result ≡ spec.front_of bytes.now }
{
    match read_header(bytes) {
        Ok(header) => tested(bytes, header),
        Err(refuse) => Err(refuse),
    }
}
