ghost use Rattle.std.specs.Prelude.{◌≡◌, IfOk, option_map};
ghost use Rattle.rw_plot.specs.Escape.{IsEscaped, entity_of, escaped};

use std::alloc::{AllocError, Global};

/// What a byte of a text becomes in a document of XML, where that is not the byte itself.
#[tactic(auto, unfolding(crate::specs::Escape::entity_of))]
fn entity(byte: u8) -> Option<&'static [u8]>
    ensures { option_map (λ s. s.now) result ≡ entity_of byte }
{
    match byte {
        b'&' => Some(b"&amp;"),
        b'<' => Some(b"&lt;"),
        b'>' => Some(b"&gt;"),
        b'"' => Some(b"&quot;"),
        b'\'' => Some(b"&apos;"),
        _ => None,
    }
}

/// A text as it may stand in a document of XML, in an element or between quotes: each of `&`, `<`, `>`, `"` and `'` as its
/// entity, and all other bytes as they are.
#[tactic(auto, using(crate::proofs::Escapes::escape_rules))]
pub fn escape(alloc: Global, text: &[u8]) -> Result<Vec<u8>, AllocError>
    ensures value { IfOk result (λ v. v.items ≡ escaped text.now) }
    ensures law { IfOk result (λ v. IsEscaped v.items) }
{
    let mut out = Vec::new(alloc);
    for byte in text {
        match entity(*byte) {
            Some(name) => out.extend_from_slice(name)?,
            None => out.push(*byte)?,
        }
    }
    Ok(out)
}

/// Whether XML 1.0 allows a character.
fn is_allowed(c: char) -> bool {
    match c {
        '\t' | '\n' | '\r' => true,
        '\u{0}'..='\u{1f}' | '\u{fffe}' | '\u{ffff}' => false,
        _ => true,
    }
}

/// About how wide a character is, in tenths of a pixel at twelve pixels.
fn width_of_char(c: char) -> u32 {
    match c {
        'f' | 'i' | 'j' | 'l' | 't' | 'r' | 'I' | ' ' | '.' | ',' | ':' | ';' | '|' | '!' | '\'' =>
            40,
        'm' | 'w' | 'M' | 'W' | '@' | '%' => 125,
        'A'..='Z' => 85,
        '\u{0}'..='\u{10ff}' => 70,
        _ => 130,
    }
}

/// What shows that a text was cut.
const CUT: &str = "\u{2026}";

/// Puts a text to another, with U+FFFD for what XML 1.0 does not allow; cut where it would be wider than `room`, in tenths of
/// a pixel.
fn push_allowed(text: &mut String, whole: &str, room: u32) -> Result<(), AllocError> {
    let mut wide: u32 = 0;
    for c in whole.chars() {
        wide = wide.saturating_add(width_of_char(c));
        if wide > room {
            return text.push_str(CUT);
        }
        text.push(if is_allowed(c) { c } else { '\u{fffd}' })?;
    }
    Ok(())
}

/// The text of some bytes, with U+FFFD for what is no UTF-8 and for what XML 1.0 does not allow; cut where it would be wider
/// than `room`, in tenths of a pixel.
pub(crate) fn readable(alloc: Global, bytes: &[u8], room: u32) -> Result<String, AllocError> {
    let whole = String::from_utf8_lossy(alloc, bytes)?;
    let mut text = String::new(alloc);
    push_allowed(&mut text, whole.as_str(), room)?;
    Ok(text)
}
