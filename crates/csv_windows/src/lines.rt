//! The whole lines at the front of a window.
ghost use Rattle.csv_windows.specs.Breaks.{IsLastBreak};

/// Returns how many bytes there are up to the last LF that follows an even number of double quotes. In a text of records it ends one.
pub fn lines_len(bytes: &[u8]) -> usize
    ensures { IsLastBreak bytes.now result }
{
    let mut quotes = bytes.iter().filter(|b| **b == b'"').count();
    let mut end = bytes.len();
    while end > 0 {
        let last = bytes[end - 1];
        if last == b'\n' && quotes % 2 == 0 {
            return end;
        }
        if last == b'"' {
            quotes -= 1;
        }
        end -= 1;
    }
    0
}
