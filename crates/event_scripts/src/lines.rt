//! The lines of a script.
ghost use Rattle.std.specs.Prelude.{◌≡◌, ◌<◌, ◌∷◌, [], IfSome, MatchOption, length, position};
ghost use Rattle.event_scripts.specs.Lines.{is_line_feed, script_lines, less_return};

/// Returns where the first line feed is.
fn line_feed(script: &[u8]) -> Option<usize>
    ensures { result ≡ position is_line_feed script.now }
{
    script.iter().position(|byte| *byte == b'\n')
}

/// Returns a line without the one carriage return at its end, if it has one.
fn without_return(line: &[u8]) -> &[u8]
    ensures { result.now ≡ less_return line.now }
{
    match line.strip_suffix(b"\r") {
        Some(front) => front,
        None => line,
    }
}

/// Returns the first line, and what follows it, unless nothing is left. A line is ended by LF, with an optional CR before it; the last one needs no
/// end.
pub fn first_line(script: &[u8]) -> Option<(&[u8], &[u8])>
    ensures line { MatchOption result (script_lines script.now ≡ [])
        (λ first. script_lines script.now ≡ first.0.now ∷ script_lines first.1.now) }
    ensures shorter { IfSome result (λ first. length first.1.now < length script.now) }
{
    if script.is_empty() {
        return None;
    }
    match line_feed(script) {
        Some(at) => {
            let (line, behind) = script.split_at(at);
            Some((without_return(line), &behind[1..]))
        }
        None => Some((script, &[])),
    }
}
