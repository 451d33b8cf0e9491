//! Why no request is made: it is refused under a code, or memory ran out.
ghost use Rattle.std.specs.Prelude.{◌≡◌};
ghost use Rattle.odata_request.specs.Fault.{fault_of, head_code, lex_code, parse_code, type_code, url_code};

use http_heads::HeadFault;
use odata_errors::Code;
use odata_lex::LexFault;
use odata_parse::{ParseFault, Syntax};
use odata_types::TypeFault;
use odata_url::UrlFault;

/// Why no request is made.
#[derive(Clone, Copy)]
pub(crate) enum RequestFault {
    /// What was asked for is refused.
    Refused(Code),
    /// Memory ran out.
    NoMemory,
}

impl RequestFault {
    /// Returns the fault with this code; running out of memory has none.
    fn of(code: Option<Code>) -> RequestFault
        ensures { result ≡ fault_of code }
    {
        match code {
            Some(code) => RequestFault::Refused(code),
            None => RequestFault::NoMemory,
        }
    }
}

/// Returns the code of a head's fault.
fn head_code(fault: HeadFault) -> Code
    ensures { result ≡ head_code fault }
{
    match fault {
        HeadFault::BadHost => Code::BadHost,
        HeadFault::NotServed => Code::NotServed,
        HeadFault::BadLength => Code::BadLength,
        HeadFault::MethodNotAllowed => Code::MethodNotAllowed,
    }
}

/// Returns the code of a target's fault.
fn url_code(fault: UrlFault) -> Option<Code>
    ensures { result ≡ url_code fault }
{
    match fault {
        UrlFault::BadTarget => Some(Code::BadTarget),
        UrlFault::BadEscape => Some(Code::BadEscape),
        UrlFault::BadUtf8 => Some(Code::BadUtf8),
        UrlFault::UnknownOption => Some(Code::UnknownOption),
        UrlFault::NotServed => Some(Code::NotServed),
        UrlFault::OptionTwice => Some(Code::OptionTwice),
        UrlFault::NoMemory => None,
    }
}

/// Returns the code of a fault of tokens.
fn lex_code(fault: LexFault) -> Option<Code>
    ensures { result ≡ lex_code fault }
{
    match fault {
        LexFault::Bad => Some(Code::BadToken),
        LexFault::TooMany => Some(Code::TooMany),
        LexFault::NoMemory => None,
    }
}

/// Returns the code of a fault of trees.
fn parse_code(fault: ParseFault) -> Option<Code>
    ensures { result ≡ parse_code fault }
{
    match fault {
        ParseFault::TooDeep => Some(Code::TooDeep),
        ParseFault::Syntax => Some(Code::Syntax),
        ParseFault::NoMemory => None,
    }
}

/// Returns the code of a fault of types.
fn type_code(fault: TypeFault) -> Option<Code>
    ensures { result ≡ type_code fault }
{
    match fault {
        TypeFault::UnknownName => Some(Code::UnknownName),
        TypeFault::Mismatch => Some(Code::Mismatch),
        TypeFault::TooLarge => Some(Code::TooLarge),
        TypeFault::AliasTaken => Some(Code::AliasTaken),
        TypeFault::BadKey => Some(Code::BadKey),
        TypeFault::NoMemory => None,
    }
}

impl From<Code> for RequestFault {
    ghost use Rattle.odata_request.specs.declared.fault.RequestFault.TheVariants.{Refused};

    ghost from_gives = { λ code made. made ≡ Refused code };

    fn from(code: Code) -> RequestFault {
        RequestFault::Refused(code)
    }
}

impl From<HeadFault> for RequestFault {
    ghost use Rattle.odata_request.specs.declared.fault.RequestFault.TheVariants.{Refused};

    ghost from_gives = { λ fault made. made ≡ Refused (head_code fault) };

    fn from(fault: HeadFault) -> RequestFault {
        RequestFault::Refused(head_code(fault))
    }
}

impl From<UrlFault> for RequestFault {
    ghost from_gives = { λ fault made. made ≡ fault_of (url_code fault) };

    fn from(fault: UrlFault) -> RequestFault {
        RequestFault::of(url_code(fault))
    }
}

impl From<LexFault> for RequestFault {
    ghost from_gives = { λ fault made. made ≡ fault_of (lex_code fault) };

    fn from(fault: LexFault) -> RequestFault {
        RequestFault::of(lex_code(fault))
    }
}

impl From<ParseFault> for RequestFault {
    ghost from_gives = { λ fault made. made ≡ fault_of (parse_code fault) };

    fn from(fault: ParseFault) -> RequestFault {
        RequestFault::of(parse_code(fault))
    }
}

impl From<TypeFault> for RequestFault {
    ghost from_gives = { λ fault made. made ≡ fault_of (type_code fault) };

    fn from(fault: TypeFault) -> RequestFault {
        RequestFault::of(type_code(fault))
    }
}

impl From<Syntax> for RequestFault {
    ghost use Rattle.odata_errors.specs.declared.code.Code.TheVariants as code;
    ghost use Rattle.odata_request.specs.declared.fault.RequestFault.TheVariants.{Refused};

    ghost from_gives = { λ _ made. made ≡ Refused code.Syntax };

    fn from(_: Syntax) -> RequestFault {
        RequestFault::Refused(Code::Syntax)
    }
}
