//! The fields of a head that decide how it is answered (RFC 9110, sections 5 and 7; RFC 9112, sections 3.2, 6 and 9.3).
ghost use Rattle.std.specs.Prelude.{◌≡◌, ◌++◌, ℕ, List, [], ◌∷◌};
ghost use Rattle.http_heads.specs.Head.{HeadOf};
ghost use Rattle.http_heads.specs.Fields.{asks_to_close, has_coding, has_no_body, has_no_length, host_fits, is_closing, is_optional_space, lists_close, same_word, stripped, without_back, without_front};
ghost use Rattle.http_heads.specs.Said.{said_by};

/// Returns true if two names or words are the same, in any case of ASCII letters.
fn is_same_word(word: &[u8], other: &[u8]) -> bool
    ensures { result ≡ same_word word.now other.now }
{
    word.eq_ignore_ascii_case(other)
}

/// Returns true if a byte is a space or a tab.
fn is_blank(byte: u8) -> bool
    ensures { result ≡ is_optional_space byte }
{
    byte == b' ' || byte == b'\t'
}

/// Returns the bytes without the spaces and tabs before them.
fn strip_front(bytes: &[u8]) -> &[u8]
    ensures { result.now ≡ without_front bytes.now }
{
    let mut rest = bytes;
    while let Some((first, behind)) = rest.split_first() {
        if !is_blank(*first) {
            return rest;
        }
        rest = behind;
    }
    rest
}

/// Returns the bytes without trailing spaces and tabs.
fn strip_back(bytes: &[u8]) -> &[u8]
    ensures { result.now ≡ without_back bytes.now }
{
    let mut rest = bytes;
    while let Some((last, front)) = rest.split_last() {
        if !is_blank(*last) {
            return rest;
        }
        rest = front;
    }
    rest
}

/// Returns the bytes without the spaces and tabs round them.
fn strip(bytes: &[u8]) -> &[u8]
    ensures { result.now ≡ stripped bytes.now }
{
    strip_back(strip_front(bytes))
}

/// Returns true if a list of words, separated by commas, has the word `close`.
fn has_close(value: &[u8]) -> bool
    ensures { result ≡ lists_close value.now }
{
    value
        .split(|byte| *byte == b',')
        .any(|part| is_same_word(strip(part), b"close"))
}

/// Returns true if a field is no Content-Length, or says that there is no body.
fn is_bodiless(name: &[u8], value: &[u8]) -> bool
    ensures { result ≡ has_no_body (name.now, value.now) }
{
    !is_same_word(name, b"content-length") || strip(value) == b"0".as_slice()
}

/// Returns true if a field is a Connection field that lists `close`.
fn is_closing(name: &[u8], value: &[u8]) -> bool
    ensures { result ≡ is_closing (name.now, value.now) }
{
    is_same_word(name, b"connection") && has_close(value)
}

/// What some fields say that decides how a head is answered.
#[derive(Clone, Copy)]
pub(crate) struct Said {
    /// How many of them are Host fields; 2, if more are.
    hosts: u8,
    /// Whether a coding announces a body.
    is_coded: bool,
    /// Whether no Content-Length field announces a body.
    is_bodiless: bool,
    /// Whether a Connection field lists `close`.
    lists_close: bool,
}

impl Said {
    /// Returns what no fields say.
    pub(crate) fn nothing() -> Said
        ensures { result ≡ said_by [] }
    {
        Said {
            hosts: 0,
            is_coded: false,
            is_bodiless: true,
            lists_close: false,
        }
    }

    /// Returns one field more.
    pub(crate) fn with(self, name: &[u8], value: &[u8]) -> Said
        ensures { (fields : List (List ℕ × List ℕ)) → self ≡ said_by fields
            → result ≡ said_by (fields ++ (name.now, value.now) ∷ []) }
    {
        let hosts = match (is_same_word(name, b"host"), self.hosts) {
            (false, hosts) => hosts,
            (true, 0) => 1,
            (true, _) => 2,
        };
        let is_coded = self.is_coded || is_same_word(name, b"transfer-encoding");
        let is_bodiless = self.is_bodiless && is_bodiless(name, value);
        let lists_close = self.lists_close || is_closing(name, value);
        Said {
            hosts,
            is_coded,
            is_bodiless,
            lists_close,
        }
    }

    /// Returns true if the Host fields are as many as the version wants.
    pub(crate) fn has_host(&self, minor: u8) -> bool
        ensures { (head : HeadOf) → head.minor ≡ minor → self.now ≡ said_by head.fields
            → result ≡ host_fits head }
    {
        self.hosts == 1 || (minor == 0 && self.hosts == 0)
    }

    /// Returns true if a coding announces a body.
    pub(crate) fn is_coded(&self) -> bool
        ensures { (head : HeadOf) → self.now ≡ said_by head.fields → result ≡ has_coding head }
    {
        self.is_coded
    }

    /// Returns true if no Content-Length field announces a body.
    pub(crate) fn is_without_length(&self) -> bool
        ensures { (head : HeadOf) → self.now ≡ said_by head.fields → result ≡ has_no_length head }
    {
        self.is_bodiless
    }

    /// Returns true if the client wants no further reply.
    pub(crate) fn is_last(&self, minor: u8) -> bool
        ensures { (head : HeadOf) → head.minor ≡ minor → self.now ≡ said_by head.fields
            → result ≡ asks_to_close head }
    {
        minor == 0 || self.lists_close
    }
}
