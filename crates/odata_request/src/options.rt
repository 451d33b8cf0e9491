//! The options of a query: whether each fits what the path leads to, in the query's order, and then their values, by their names.
ghost use Rattle.std.specs.Prelude.{◌≡◌, map};
ghost use Rattle.odata_url.specs.Target.{option_view};
ghost use Rattle.odata_request.specs.Options.{asked_format, format_in, option_fault, options_fault, lent_view, texts_of, asked_view, option_value};
ghost use Rattle.odata_request.specs.Resource.{resource_view};

use crate::resource::Resource;
use odata_errors::Code;
use odata_parse::{Format, parse_format};
use odata_url::OptionName;

/// Returns the code under which an option is refused whatever its value is, if it does not fit what the path leads to.
fn option_fault(resource: Resource<'_>, option: OptionName) -> Option<Code>
    ensures { result ≡ option_fault (resource_view resource.entry) option }
{
    match (resource, option) {
        (_, OptionName::Format) => None,
        (Resource::Service, _) => Some(Code::OptionNotAllowed),
        (Resource::Key(_, _), OptionName::Select) => None,
        (Resource::Key(_, _), _) => Some(Code::OptionNotAllowed),
        (Resource::Rows(_) | Resource::Count(_), _) => None,
    }
}

/// Returns the code of the first option that does not fit, in the query's order.
pub(crate) fn options_fault(
    resource: Resource<'_>,
    options: &[(OptionName, String)],
) -> Option<Code>
    ensures { result ≡ options_fault (resource_view resource.entry) (map option_view options.now) }
{
    for option in options {
        if let Some(code) = option_fault(resource, option.0) {
            return Some(code);
        }
    }
    None
}

/// Returns the value of the option of that name, if it is one of these.
fn value_of(options: &[(OptionName, String)], name: OptionName) -> Option<&str>
    ensures { lent_view result ≡ option_value name (map option_view options.now) }
{
    for option in options {
        if option.0 == name {
            return Some(option.1.as_str());
        }
    }
    None
}

/// Returns the format that a value asks for, if it is one that is served; JSON if there is none.
fn format_in(text: Option<&str>) -> Option<Format>
    ensures { result ≡ format_in (lent_view text.entry) }
{
    match text {
        Some(text) => parse_format(text).ok(),
        None => Some(Format::Json),
    }
}

/// Returns the format that options ask for, if it is one that is served.
pub(crate) fn asked_format(options: &[(OptionName, String)]) -> Option<Format>
    ensures { result ≡ asked_format (map option_view options.now) }
{
    format_in(value_of(options, OptionName::Format))
}

/// The texts of a query on a table, none if the path has no key and the query does not have the option.
#[derive(Clone, Copy)]
pub(crate) struct Texts<'a> {
    /// The key in the path.
    pub(crate) key: Option<&'a str>,
    /// Whether the path asks for the number of rows alone.
    pub(crate) counting: bool,
    pub(crate) apply: Option<&'a str>,
    pub(crate) filter: Option<&'a str>,
    pub(crate) count: Option<&'a str>,
    pub(crate) order: Option<&'a str>,
    pub(crate) skip: Option<&'a str>,
    pub(crate) top: Option<&'a str>,
    pub(crate) select: Option<&'a str>,
}

impl<'a> Texts<'a> {
    /// Returns those of a path and of these options.
    pub(crate) fn of(
        key: Option<&'a str>,
        counting: bool,
        options: &'a [(OptionName, String)],
    ) -> Texts<'a>
        ensures { asked_view result
            ≡ texts_of (lent_view key.entry) counting (map option_view options.now) }
    {
        Texts {
            key,
            counting,
            apply: value_of(options, OptionName::Apply),
            filter: value_of(options, OptionName::Filter),
            count: value_of(options, OptionName::Count),
            order: value_of(options, OptionName::OrderBy),
            skip: value_of(options, OptionName::Skip),
            top: value_of(options, OptionName::Top),
            select: value_of(options, OptionName::Select),
        }
    }
}
