//! The codes of errors.
ghost use Rattle.std.specs.Prelude.{◌≡◌};
ghost use Rattle.odata_errors.specs.Code.{code_name, message_of, status_of};

/// The codes of errors (OData 4.01 JSON Format, section 21.1), each with its status, name and message.
#[derive(Clone, Copy, PartialEq, Eq)]
pub enum Code {
    /// The request cannot be read.
    BadRequest,
    /// The Host field is missing or repeated.
    BadHost,
    /// A request body is announced.
    BadLength,
    /// The request is outside what is served.
    NotServed,
    /// The method is neither GET nor HEAD.
    MethodNotAllowed,
    /// The target begins with neither a slash nor `http://`.
    BadTarget,
    /// An escape of the target is not two hexadecimal digits.
    BadEscape,
    /// The decoded target is not UTF-8.
    BadUtf8,
    /// No system option has that name.
    UnknownOption,
    /// A system option stands twice.
    OptionTwice,
    /// The path names nothing.
    NotFound,
    /// The path names no table.
    UnknownSet,
    /// The option does not fit the path.
    OptionNotAllowed,
    /// The format is not served.
    NotAcceptable,
    /// An option's value holds what is no token.
    BadToken,
    /// An option's value has too many tokens.
    TooMany,
    /// Parentheses or prefix operators are nested too deep.
    TooDeep,
    /// An option's value is not of its grammar.
    Syntax,
    /// An expression names no column.
    UnknownName,
    /// The types of operands do not fit.
    Mismatch,
    /// A number may grow beyond what is computed.
    TooLarge,
    /// The alias of an aggregate is that of another column.
    AliasTaken,
    /// The key is none of the table.
    BadKey,
    /// No row has the key.
    NoSuchRow,
    /// A row divides by zero.
    DivisionByZero,
}

impl Code {
    /// Returns the status that a reply with this code has (RFC 9110, section 15).
    pub fn status(self) -> u16
        ensures { result ≡ status_of self }
    {
        match self {
            Code::BadRequest | Code::BadHost | Code::BadLength => 400,
            Code::BadTarget | Code::BadEscape | Code::BadUtf8 => 400,
            Code::UnknownOption | Code::OptionTwice | Code::OptionNotAllowed => 400,
            Code::BadToken | Code::TooMany | Code::TooDeep | Code::Syntax => 400,
            Code::UnknownName | Code::Mismatch | Code::TooLarge => 400,
            Code::AliasTaken | Code::BadKey | Code::DivisionByZero => 400,
            Code::NotFound | Code::UnknownSet | Code::NoSuchRow => 404,
            Code::MethodNotAllowed => 405,
            Code::NotAcceptable => 406,
            Code::NotServed => 501,
        }
    }

    /// Returns the name that the body has.
    pub fn name(self) -> &'static str
        ensures { result.now ≡ code_name self }
    {
        match self {
            Code::BadRequest => "BadRequest",
            Code::BadHost => "BadHost",
            Code::BadLength => "BadLength",
            Code::NotServed => "NotServed",
            Code::MethodNotAllowed => "MethodNotAllowed",
            Code::BadTarget => "BadTarget",
            Code::BadEscape => "BadEscape",
            Code::BadUtf8 => "BadUtf8",
            Code::UnknownOption => "UnknownOption",
            Code::OptionTwice => "OptionTwice",
            Code::NotFound => "NotFound",
            Code::UnknownSet => "UnknownSet",
            Code::OptionNotAllowed => "OptionNotAllowed",
            Code::NotAcceptable => "NotAcceptable",
            Code::BadToken => "BadToken",
            Code::TooMany => "TooMany",
            Code::TooDeep => "TooDeep",
            Code::Syntax => "Syntax",
            Code::UnknownName => "UnknownName",
            Code::Mismatch => "Mismatch",
            Code::TooLarge => "TooLarge",
            Code::AliasTaken => "AliasTaken",
            Code::BadKey => "BadKey",
            Code::NoSuchRow => "NoSuchRow",
            Code::DivisionByZero => "DivisionByZero",
        }
    }

    /// Returns the message for the reader of the reply.
    pub fn message(self) -> &'static str
        ensures { result.now ≡ message_of self }
    {
        match self {
            Code::BadRequest => "the request cannot be read",
            Code::BadHost => "the Host field is missing or repeated",
            Code::BadLength => "a request body is not accepted",
            Code::NotServed => "not served by this profile",
            Code::MethodNotAllowed => "only GET and HEAD are served",
            Code::BadTarget => "the target is not a path",
            Code::BadEscape => "a percent escape is broken",
            Code::BadUtf8 => "the target is not UTF-8",
            Code::UnknownOption => "unknown system option",
            Code::OptionTwice => "a system option stands twice",
            Code::NotFound => "no such resource",
            Code::UnknownSet => "no such table",
            Code::OptionNotAllowed => "the option does not fit the path",
            Code::NotAcceptable => "the format is not served",
            Code::BadToken => "an unknown token",
            Code::TooMany => "more than 1024 tokens",
            Code::TooDeep => "nested too deep",
            Code::Syntax => "a syntax fault",
            Code::UnknownName => "no such column",
            Code::Mismatch => "the types do not fit",
            Code::TooLarge => "a number may grow too large",
            Code::AliasTaken => "the alias is taken",
            Code::BadKey => "the key does not fit the table",
            Code::NoSuchRow => "no row has this key",
            Code::DivisionByZero => "division by zero",
        }
    }
}
