//! Counts, in a line.
use diagnostics::Line;

/// Appends a number with commas between its thousands.
pub fn push_count(lines: &mut Line, count: usize) {
    match format!(in lines.alloc; "{count}") {
        Ok(digits) => {
            for (place, digit) in digits.chars().enumerate() {
                if place > 0 && digits.len().saturating_sub(place) % 3 == 0 {
                    lines.push(",");
                }
                lines.is_short |= lines.text.push(digit).is_err();
            }
        }
        Err(_) => lines.is_short = true,
    }
}
