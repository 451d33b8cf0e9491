//! Request targets (RFC 9112, section 3.2), split before anything is decoded (OData URL Conventions 4.01, section 2).
ghost use Rattle.std.specs.Prelude.{◌≡◌, ◌∷◌, Ok, Err, string_bytes, map, MatchOption, MatchResult, true, false, option_map};
ghost use Rattle.odata_url.specs.Fault.{GivesPart};
ghost use Rattle.odata_url.specs.Target.{slash, origin_form, segments_of, options_of, option_of, stands_among, with_part, option_view, is_absolute, behind_scheme, behind_authority, target_of};

use crate::cuts::cut;
use crate::escapes::decode;
use crate::fault::UrlFault;
use crate::option_name::{OptionName, option_of_name};
use memchr::memchr2;
use std::alloc::Global;

/// What a target in absolute form begins with, in any ASCII case.
const SCHEME: &[u8] = b"http://";

/// What a request target says.
#[derive(Drop)]
pub struct Target {
    /// The decoded segments of the path, at least one: the path `/` has one empty segment.
    pub segments: Vec<String>,
    /// The options of the query that are served, each at most once, in the order of the query, each with its decoded value.
    pub options: Vec<(OptionName, String)>,
}

impl Target {
    ghost use Rattle.odata_url.specs.Target.{target_view};

    /// Returns what the bytes of a target say, in origin form or in absolute form; or the first fault from left to right. Each part is decoded
    /// after the target was split, so an escaped separator separates nothing.
    pub fn read(alloc: Global, bytes: &[u8]) -> Result<Target, UrlFault>
        ensures { GivesPart target_view (target_of bytes.now) result }
    {
        let (path, query) = cut(behind_slash(bytes)?, b'?');
        let segments = read_segments(alloc, path)?;
        let options = match query {
            Some(query) => read_options(alloc, query)?,
            None => Vec::new(alloc),
        };
        Ok(Target { segments, options })
    }
}

/// Returns the path and the query of a target, without the `/` that the path begins with.
#[tactic(auto, unfolding(crate::specs::Target::origin_form))]
fn behind_slash(bytes: &[u8]) -> Result<&[u8], UrlFault>
    ensures { MatchResult result (λ rest. origin_form bytes.now ≡ Ok (slash ∷ rest.now))
        (λ fault. origin_form bytes.now ≡ Err fault) }
{
    match behind_scheme(bytes) {
        Some(rest) => {
            let rest = behind_authority(rest);
            Ok(rest.strip_prefix(b"/").unwrap_or(rest))
        }
        None => bytes.strip_prefix(b"/").ok_or(UrlFault::BadTarget),
    }
}

/// Returns what follows `http://` in any ASCII case, or `None` if that does not come first.
fn behind_scheme(bytes: &[u8]) -> Option<&[u8]>
    ensures { MatchOption result (is_absolute bytes.now ≡ false)
        (λ rest. (is_absolute bytes.now ≡ true) × (rest.now ≡ behind_scheme bytes.now)) }
{
    let scheme = bytes.get(..SCHEME.len())?;
    if scheme.eq_ignore_ascii_case(SCHEME) {
        Some(&bytes[SCHEME.len()..])
    } else {
        None
    }
}

/// Returns what follows a leading authority, which the first `/` or `?` ends.
fn behind_authority(text: &[u8]) -> &[u8]
    ensures { result.now ≡ behind_authority text.now }
{
    match memchr2(b'/', b'?', text) {
        Some(place) => &text[place..],
        None => &[],
    }
}

/// Returns the decoded segments of a path, without its first `/`.
fn read_segments(alloc: Global, path: &[u8]) -> Result<Vec<String>, UrlFault>
    ensures { GivesPart (λ segments. map string_bytes segments.items)
        (segments_of (slash ∷ path.now)) result }
{
    let mut segments = Vec::new(alloc);
    let mut rest = Some(path);
    while let Some(parts) = rest {
        let (segment, behind) = cut(parts, b'/');
        segments.push(decode(alloc, segment)?)?;
        rest = behind;
    }
    Ok(segments)
}

/// Returns the options of a query that are served.
fn read_options(alloc: Global, query: &[u8]) -> Result<Vec<(OptionName, String)>, UrlFault>
    ensures { GivesPart (λ options. map option_view options.items) (options_of query.now) result }
{
    let mut options = Vec::new(alloc);
    let mut rest = Some(query);
    while let Some(parts) = rest {
        let (part, behind) = cut(parts, b'&');
        if !part.is_empty() {
            add_option(alloc, &mut options, part)?;
        }
        rest = behind;
    }
    Ok(options)
}

/// Adds the option of a part, unless it is custom.
#[tactic(auto, unfolding(crate::specs::Target::with_option, crate::specs::Target::with_part))]
fn add_option(
    alloc: Global,
    options: &mut Vec<(OptionName, String)>,
    part: &[u8],
) -> Result<(), UrlFault>
    ensures { GivesPart (λ _. map option_view options.new.items)
        (with_part (map option_view options.old.items) part.now) result }
{
    let Some((name, value)) = read_option(alloc, part)? else {
        return Ok(());
    };
    if is_among(options, name) {
        return Err(UrlFault::OptionTwice);
    }
    options.push((name, value))?;
    Ok(())
}

/// Returns true if an option of that name is one of these.
fn is_among(options: &[(OptionName, String)], name: OptionName) -> bool
    ensures { result ≡ stands_among (map option_view options.now) name }
{
    for option in options {
        if option.0 == name {
            return true;
        }
    }
    false
}

/// Returns the option that a part of a query is; none if it is custom, and then its value is not decoded.
#[tactic(auto, unfolding(crate::specs::Target::option_of, crate::specs::Target::with_value))]
fn read_option(alloc: Global, part: &[u8]) -> Result<Option<(OptionName, String)>, UrlFault>
    ensures { GivesPart (λ option. option_map option_view option) (option_of part.now) result }
{
    let (name, value) = cut(part, b'=');
    match option_of_name(decode(alloc, name)?)? {
        Some(option) => {
            let value = decode(alloc, value.unwrap_or(&[]))?;
            Ok(Some((option, value)))
        }
        None => Ok(None),
    }
}
