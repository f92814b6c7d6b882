// The words of a run, as they cross.
ghost use Rattle.std.specs.Prelude.{◌≡◌, ◌∷◌, ◌++◌, map, string_bytes, IfOk, IfSome, None};
ghost use Rattle.sg_calls.specs.Running.{AreWords, HasNoZero, IsUnended};

use std::alloc::{AllocError, Global};

/// The words, each of which is ended by a byte 0; none if something follows the last one.
pub fn words_in(alloc: Global, bytes: &[u8]) -> Result<Option<Vec<String>>, AllocError>
    ensures ended { IfOk result (λ found. IfSome found (λ words. AreWords bytes.now (map string_bytes words.items))) }
    ensures unended { result ≡ Ok None → IsUnended bytes.now }
{
    let mut words = Vec::new(alloc);
    let mut rest = bytes;
    while let Some((word, after)) = cut(rest) {
        words.push(String::from_utf8_lossy(alloc, word)?)?;
        rest = after;
    }
    Ok(rest.is_empty().then_some(words))
}

// What precedes the first byte 0, and what follows it.
fn cut(bytes: &[u8]) -> Option<(&[u8], &[u8])>
    ensures parts { IfSome result (λ r. bytes.now ≡ r.0.now ++ 0 ∷ r.1.now) }
    ensures word { IfSome result (λ r. HasNoZero r.0.now) }
    ensures none { result ≡ None → HasNoZero bytes.now }
{
    let at = bytes.iter().position(|byte| *byte == 0)?;
    Some((&bytes[..at], &bytes[at + 1..]))
}
