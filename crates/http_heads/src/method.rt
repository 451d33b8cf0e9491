//! The methods of requests.
ghost use Rattle.std.specs.Prelude.{◌≡◌};
ghost use Rattle.http_heads.specs.Method.{method_of};

/// A method that is served (RFC 9110, sections 9.3.1 and 9.3.2).
#[derive(Clone, Copy, PartialEq, Eq)]
pub enum Method {
    Get,
    Head,
}

impl Method {
    /// Returns the method of that name, which counts its case (RFC 9110, section 9.1), or `None` if it is not served.
    pub fn of(name: &[u8]) -> Option<Method>
        ensures { result ≡ method_of name.now }
    {
        if name == b"GET".as_slice() {
            Some(Method::Get)
        } else if name == b"HEAD".as_slice() {
            Some(Method::Head)
        } else {
            None
        }
    }
}
