//! The forms of a table's url and of a column's name.
ghost use Rattle.std.specs.Prelude.{◌≡◌, ◌&&◌, length, nat_lt, slice_index};
ghost use Rattle.std.specs.Char.{is_ascii_alphabetic};
ghost use Rattle.std.specs.List.{list_all};
ghost use Rattle.csvw_meta.specs.Forms.{is_name_byte as is_name_byte_of, is_url_byte as is_url_byte_of, is_column_name as is_column_name_of, is_table_url as is_table_url_of, table_name as table_name_of};

/// The most bytes of a column's name.
pub(crate) const MOST_NAME_BYTES: usize = 128;
/// The most bytes of a table's url.
pub(crate) const MOST_URL_BYTES: usize = 132;

/// Returns an ASCII letter, digit or low line.
fn is_name_byte(b: u8) -> bool
    ensures { result ≡ is_name_byte_of b }
{
    b.is_ascii_alphanumeric() || b == b'_'
}

/// Returns an ASCII letter, digit, low line or hyphen.
fn is_url_byte(b: u8) -> bool
    ensures { result ≡ is_url_byte_of b }
{
    is_name_byte(b) || b == b'-'
}

/// Returns true if an ASCII letter comes first.
fn begins_with_letter(bytes: &[u8]) -> bool
    ensures { result ≡ (nat_lt 0 (length bytes.now) && is_ascii_alphabetic
        (slice_index bytes.now 0)) }
{
    match bytes.first() {
        Some(first) => first.is_ascii_alphabetic(),
        None => false,
    }
}

/// Letters, digits and low lines.
fn are_name_bytes(bytes: &[u8]) -> bool
    ensures { result ≡ list_all is_name_byte_of bytes.now }
{
    bytes.iter().all(|b| is_name_byte(*b))
}

/// Letters, digits, low lines and hyphens.
fn are_url_bytes(bytes: &[u8]) -> bool
    ensures { result ≡ list_all is_url_byte_of bytes.now }
{
    bytes.iter().all(|b| is_url_byte(*b))
}

/// Returns the form of a column's name.
pub(crate) fn is_column_name(name: &str) -> bool
    ensures { result ≡ is_column_name_of name.now }
{
    let bytes = name.as_bytes();
    bytes.len() <= MOST_NAME_BYTES && begins_with_letter(bytes) && are_name_bytes(&bytes[1..])
}

/// Returns true if a text has the form of a table's url: at most 132 bytes, an ASCII letter, then letters, digits, low lines and hyphens, then `.csv`.
pub fn is_table_url(url: &str) -> bool
    ensures { result ≡ is_table_url_of url.now }
{
    let bytes = url.as_bytes();
    if bytes.len() > MOST_URL_BYTES || !bytes.ends_with(b".csv") {
        return false;
    }
    let name = table_name(url).as_bytes();
    begins_with_letter(name) && are_url_bytes(&name[1..])
}

/// Returns a url without its `.csv`, which is the name of its table.
pub fn table_name(url: &str) -> &str
    ensures { result.now ≡ table_name_of url.now }
{
    match url.strip_suffix(".csv") {
        Some(name) => name,
        None => url,
    }
}
