//! The names of query options (OData URL Conventions 4.01, section 5).
ghost use Rattle.std.specs.Prelude.{◌≡◌, string_bytes};
ghost use Rattle.odata_url.specs.OptionName.{begins_with, without_dollar, served_option, is_unserved, option_of_name};

use crate::fault::UrlFault;

/// A system query option that is served.
#[derive(Clone, Copy, Debug, PartialEq, Eq)]
pub enum OptionName {
    Apply,
    Filter,
    Count,
    OrderBy,
    Skip,
    Top,
    Select,
    Format,
}

/// Returns the served option that a name means; none if it is custom. A system option's name has `$` in front or not, in any ASCII case.
#[tactic(auto, unfolding(crate::specs::OptionName::plain_name, crate::specs::OptionName::option_of_name))]
pub(crate) fn option_of_name(mut name: String) -> Result<Option<OptionName>, UrlFault>
    ensures { result ≡ option_of_name (string_bytes name) }
{
    let is_alias = begins_with(name.as_str(), b'@');
    let is_system = begins_with(name.as_str(), b'$');
    name.make_ascii_lowercase();
    let plain = without_dollar(name.as_str());
    if is_alias || is_unserved(plain) {
        return Err(UrlFault::NotServed);
    }
    match served_option(plain) {
        Some(option) => Ok(Some(option)),
        None if is_system => Err(UrlFault::UnknownOption),
        None => Ok(None),
    }
}

/// Returns true if the byte comes first.
fn begins_with(text: &str, byte: u8) -> bool
    ensures { result ≡ begins_with byte text.now }
{
    match text.as_bytes() {
        [first, ..] => *first == byte,
        [] => false,
    }
}

/// Returns a name without one `$` in front.
fn without_dollar(name: &str) -> &str
    ensures { result.now ≡ without_dollar name.now }
{
    match name.strip_prefix('$') {
        Some(rest) => rest,
        None => name,
    }
}

/// Returns the served option that has that name, which is in lower case and without `$`.
#[tactic(auto, unfolding(crate::specs::OptionName::served_option))]
fn served_option(name: &str) -> Option<OptionName>
    ensures { result ≡ served_option name.now }
{
    match name {
        "apply" => Some(OptionName::Apply),
        "filter" => Some(OptionName::Filter),
        "count" => Some(OptionName::Count),
        "orderby" => Some(OptionName::OrderBy),
        "skip" => Some(OptionName::Skip),
        "top" => Some(OptionName::Top),
        "select" => Some(OptionName::Select),
        "format" => Some(OptionName::Format),
        _ => None,
    }
}

/// Returns true if a system option that is not served has that name, which is in lower case and without `$`.
#[tactic(auto, unfolding(crate::specs::OptionName::is_unserved))]
fn is_unserved(name: &str) -> bool
    ensures { result ≡ is_unserved name.now }
{
    matches!(
        name,
        "expand"
            | "search"
            | "compute"
            | "levels"
            | "skiptoken"
            | "deltatoken"
            | "schemaversion"
            | "id"
            | "index"
    )
}
