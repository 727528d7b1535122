// Numbers in rows.

/// The number that decimal digits write; None for anything else, and for a number past the greatest.
pub fn number(text: &str) -> Option<usize> {
    if text.bytes().all(|byte| byte.is_ascii_digit()) {
        text.parse::<usize>().ok()
    } else {
        None
    }
}
