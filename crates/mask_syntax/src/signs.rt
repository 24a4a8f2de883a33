//! The signs at a term's head.
ghost use Rattle.std.specs.Prelude.{◌≡◌, ◌≤◌, length, IfOk, position, not, IfSome, ◌<◌};
ghost use Rattle.mask_syntax.specs.Term.{is_sign, sign_of, sign_count, signs_of};

use edit_terms::{Items, Sign};
use memory::Memory;
use std::alloc::Global;

/// How many signs stand before the leaf.
pub(crate) fn sign_count(bytes: &[u8]) -> usize
    ensures count { result ≡ sign_count bytes.now }
    ensures within { result ≤ length bytes.now }
{
    first_other(bytes).unwrap_or(bytes.len())
}

fn first_other(bytes: &[u8]) -> Option<usize>
    ensures { result ≡ position (λ b. not (is_sign b)) bytes.now }
{
    bytes.iter().position(|b| !is_sign(*b))
}

/// The signs, the outermost first.
pub(crate) fn signs_of(alloc: Global, bytes: &[u8]) -> Result<Items<Sign>, Memory>
    ensures { IfOk result (λ signs. signs ≡ signs_of bytes.now) }
{
    let count = sign_count(bytes);
    let mut signs = Vec::with_capacity(alloc, count)?;
    for b in &bytes[..count] {
        signs.push(sign_of(*b))?;
    }
    Ok(Items::from_vec(signs))
}

fn is_sign(b: u8) -> bool
    ensures { result ≡ is_sign b }
{
    b == b'!' || b == b'>' || b == b'<'
}

/// The sign that such a byte is.
fn sign_of(b: u8) -> Sign
    ensures { result ≡ sign_of b }
{
    if b == b'!' {
        return Sign::Not;
    }
    if b == b'>' {
        return Sign::Below;
    }
    Sign::Above
}
