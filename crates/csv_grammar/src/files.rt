//! What stands at the front of a file.
ghost use Rattle.std.specs.Prelude.{◌≡◌, ◌≤◌, length};
ghost use Rattle.csv_grammar.specs.Files.{mark_len};

/// The byte order mark of UTF-8 (RFC 3629, section 6).
const BYTE_ORDER_MARK: [u8; 3] = [0xEF, 0xBB, 0xBF];

/// Returns how many bytes the byte order mark at the front takes: 3, or 0 if there is none (RFC 3629, section 6).
pub fn mark_len(bytes: &[u8]) -> usize
    ensures mark { result ≡ mark_len bytes.now }
    ensures within { result ≤ length bytes.now }
{
    if bytes.starts_with(&BYTE_ORDER_MARK) {
        BYTE_ORDER_MARK.len()
    } else {
        0
    }
}
