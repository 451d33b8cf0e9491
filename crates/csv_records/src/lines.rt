//! The lines of a text.
ghost use Rattle.std.specs.Prelude.{◌≡◌, ◌==◌, ◌≤◌, MatchOption, [], ◌∷◌, length};
ghost use Rattle.std.specs.List.{after_first, position_or_len};
ghost use Rattle.csv_grammar.specs.Bytes.{line_feed};
ghost use Rattle.csv_records.specs.Lines.{after_lines};

/// Returns the first byte of a text and the bytes after it; `None` if there is none.
pub(crate) fn cut_first(text: &[u8]) -> Option<(u8, &[u8])>
    ensures { MatchOption result (text.now ≡ [])
        (λ parts. text.now ≡ parts.0 ∷ parts.1.now) }
{
    match text.split_first() {
        Some((first, rest)) => Some((*first, rest)),
        None => None,
    }
}

/// Returns the number of bytes before the first LF.
fn line_len(text: &[u8]) -> usize
    ensures within { result ≤ length text.now }
    ensures place { result ≡ position_or_len (λ byte. byte == line_feed) text.now }
{
    text.iter().take_while(|byte| **byte != b'\n').count()
}

/// Returns a text without its first line.
fn after_line(text: &[u8]) -> &[u8]
    ensures { result.now ≡ after_first (λ byte. byte == line_feed) text.now }
{
    let (_, rest) = text.split_at(line_len(text));
    match rest {
        [_, after @ ..] => after,
        [] => rest,
    }
}

/// Returns a text without its first lines.
pub fn after_lines(text: &[u8], count: usize) -> &[u8]
    ensures { result.now ≡ after_lines count text.now }
{
    let mut left = text;
    for _line in 0..count {
        left = after_line(left);
    }
    left
}
