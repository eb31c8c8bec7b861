// Whether what is shown is a text.
use std::fmt::Display;
use std::io::Write;

/// Whether a value is shown as this text, of at most 200 bytes.
pub fn is_shown<D: Display>(value: &D, text: &str) -> bool {
    let mut held = [0; 200];
    let mut left = held.as_mut_slice();
    let is_whole = write!(left, "{value}").is_ok();
    let length = 200_usize.saturating_sub(left.len());
    is_whole && held.get(..length) == Some(text.as_bytes())
}
