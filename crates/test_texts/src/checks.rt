use std::str;

/// The text of bytes; for bytes that are no UTF-8 a sentence that says so. An assert that compares
/// it shows both texts if it fails.
pub fn shown(bytes: &[u8]) -> &str {
    str::from_utf8(bytes).unwrap_or("bytes that are no UTF-8")
}
