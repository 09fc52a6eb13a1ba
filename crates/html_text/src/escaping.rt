//! Texts in which each byte that HTML gives a meaning is written as an entity.
ghost use Rattle.std.specs.Prelude.{◌≡◌, ◌++◌, IfOk, IsUtf8, OnOk, string_bytes};
ghost use Rattle.html_text.specs.Escaped.{entity, escaped};

use std::alloc::{AllocError, Global};

/// The text with each of `&`, `<`, `>`, `"` and `'` written as an entity. The time is linear in the text.
///
/// Source: HTML Living Standard 13.1.4 (Character references).
pub fn escaped(alloc: Global, text: &str) -> Result<String, AllocError>
    ensures { IfOk result (λ page. string_bytes page ≡ escaped text.now) }
{
    let mut page = Vec::new(alloc);
    push_entities(&mut page, text.as_bytes())?;
    // An entity is ASCII, and a byte that none stands for stays.
    Ok(unsafe { String::from_utf8_unchecked(page) })
}

/// Puts what stands for each byte last.
fn push_entities(page: &mut Vec<u8>, text: &[u8]) -> Result<(), AllocError>
    ensures { OnOk result (page.new.items ≡ page.old.items ++ escaped text.now) }
{
    for byte in text {
        push_entity(page, *byte)?;
    }
    Ok(())
}

/// Puts what stands for a byte last.
#[tactic(auto, unfolding(crate::specs::Escaped::entity))]
fn push_entity(page: &mut Vec<u8>, byte: u8) -> Result<(), AllocError>
    ensures { OnOk result (page.new.items ≡ page.old.items ++ entity byte) }
{
    match byte {
        b'&' => page.extend_from_slice(b"&amp;"),
        b'<' => page.extend_from_slice(b"&lt;"),
        b'>' => page.extend_from_slice(b"&gt;"),
        b'"' => page.extend_from_slice(b"&quot;"),
        b'\'' => page.extend_from_slice(b"&#39;"),
        _ => {
            page.push(byte)?;
            Ok(())
        }
    }
}
