//! The values of options, and keys, by their grammars.
ghost use Rattle.std.specs.Prelude.{[], false, option_map};
ghost use Rattle.odata_parse.specs.Expression.{IsFilter};
ghost use Rattle.odata_parse.specs.Options.{IsKey, IsOrder, IsSelection};
ghost use Rattle.odata_parse.specs.Tree.{apply_view, expr_view, key_view, order_by_view, selection_view};
ghost use Rattle.odata_request.specs.Fault.{Yields};
ghost use Rattle.odata_request.specs.Options.{lent_view};
ghost use Rattle.odata_request.specs.Reading.{ReadsApply, ReadsFlag, ReadsNumber, ReadsOption, ReadsOr, ReadsTree};

use crate::fault::RequestFault;
use odata_lex::lex;
use odata_parse::tree::{Expr, Key, OrderItem, SelectItem, Transformation};
use odata_parse::{
    parse_apply, parse_filter, parse_flag, parse_key, parse_number, parse_orderby, parse_select,
};
use std::alloc::Global;

/// Returns a key's text.
fn read_key(alloc: Global, text: &str) -> Result<Key, RequestFault>
    ensures { Yields key_view (ReadsTree IsKey text.now) result }
{
    odata_lex::tokens_or_fault();
    let tokens = lex(alloc, text)?;
    Ok(parse_key(alloc, text, tokens.as_slice())?)
}

/// Reads the value of `$apply`, which may have at most `limit` transformations.
fn read_apply(alloc: Global, limit: u32, text: &str) -> Result<Vec<Transformation>, RequestFault>
    ensures { Yields apply_view (ReadsApply limit text.now) result }
{
    odata_lex::tokens_or_fault();
    let tokens = lex(alloc, text)?;
    Ok(parse_apply(alloc, text, tokens.as_slice(), limit)?)
}

/// Returns the value of `$filter`.
fn read_filter(alloc: Global, text: &str) -> Result<Expr, RequestFault>
    ensures { Yields expr_view (ReadsTree IsFilter text.now) result }
{
    odata_lex::tokens_or_fault();
    let tokens = lex(alloc, text)?;
    Ok(parse_filter(alloc, text, tokens.as_slice())?)
}

/// Returns the value of `$orderby`.
fn read_order(alloc: Global, text: &str) -> Result<Vec<OrderItem>, RequestFault>
    ensures { Yields order_by_view (ReadsTree IsOrder text.now) result }
{
    odata_lex::tokens_or_fault();
    let tokens = lex(alloc, text)?;
    Ok(parse_orderby(alloc, text, tokens.as_slice())?)
}

/// Returns the value of `$select`.
fn read_selection(alloc: Global, text: &str) -> Result<Vec<SelectItem>, RequestFault>
    ensures { Yields selection_view (ReadsTree IsSelection text.now) result }
{
    odata_lex::tokens_or_fault();
    let tokens = lex(alloc, text)?;
    Ok(parse_select(alloc, text, tokens.as_slice())?)
}

/// Returns the value of `$skip` or `$top`.
fn read_number(text: &str) -> Result<u64, RequestFault>
    ensures { Yields (λ number. number) (ReadsNumber text.now) result }
{
    Ok(parse_number(text)?)
}

/// Returns the key, if the path has one.
pub(crate) fn optional_key(alloc: Global, text: Option<&str>) -> Result<Option<Key>, RequestFault>
    ensures { Yields (λ key. option_map key_view key)
        (ReadsOption (ReadsTree IsKey) (lent_view text.entry)) result }
{
    match text {
        Some(text) => Ok(Some(read_key(alloc, text)?)),
        None => Ok(None),
    }
}

/// Returns the transformations of `$apply`; none if the query does not have it.
pub(crate) fn apply_or_none(
    alloc: Global,
    limit: u32,
    text: Option<&str>,
) -> Result<Vec<Transformation>, RequestFault>
    ensures { Yields apply_view (ReadsOr [] (ReadsApply limit) (lent_view text.entry)) result }
{
    match text {
        Some(text) => read_apply(alloc, limit, text),
        None => Ok(Vec::new(alloc)),
    }
}

/// Returns the filter, if the query has one.
pub(crate) fn optional_filter(
    alloc: Global,
    text: Option<&str>,
) -> Result<Option<Expr>, RequestFault>
    ensures { Yields (λ tree. option_map expr_view tree)
        (ReadsOption (ReadsTree IsFilter) (lent_view text.entry)) result }
{
    match text {
        Some(text) => Ok(Some(read_filter(alloc, text)?)),
        None => Ok(None),
    }
}

/// Returns whether the query asks for the number of rows by `$count`.
pub(crate) fn flag_or_false(text: Option<&str>) -> Result<bool, RequestFault>
    ensures { Yields (λ flag. flag) (ReadsOr false ReadsFlag (lent_view text.entry)) result }
{
    match text {
        Some(text) => Ok(parse_flag(text)?),
        None => Ok(false),
    }
}

/// Returns the items of `$orderby`; none if the query does not have it.
pub(crate) fn order_or_none(
    alloc: Global,
    text: Option<&str>,
) -> Result<Vec<OrderItem>, RequestFault>
    ensures { Yields order_by_view (ReadsOr [] (ReadsTree IsOrder) (lent_view text.entry)) result }
{
    match text {
        Some(text) => read_order(alloc, text),
        None => Ok(Vec::new(alloc)),
    }
}

/// Returns the value of `$skip`; 0 if the query does not have it.
pub(crate) fn number_or_zero(text: Option<&str>) -> Result<u64, RequestFault>
    ensures { Yields (λ number. number) (ReadsOr 0 ReadsNumber (lent_view text.entry)) result }
{
    match text {
        Some(text) => read_number(text),
        None => Ok(0),
    }
}

/// Returns the value of `$top`, if the query has it.
pub(crate) fn optional_number(text: Option<&str>) -> Result<Option<u64>, RequestFault>
    ensures { Yields (λ number. number) (ReadsOption ReadsNumber (lent_view text.entry)) result }
{
    match text {
        Some(text) => Ok(Some(read_number(text)?)),
        None => Ok(None),
    }
}

/// Returns the items of `$select`, if the query has it.
pub(crate) fn optional_selection(
    alloc: Global,
    text: Option<&str>,
) -> Result<Option<Vec<SelectItem>>, RequestFault>
    ensures { Yields (λ items. option_map selection_view items)
        (ReadsOption (ReadsTree IsSelection) (lent_view text.entry)) result }
{
    match text {
        Some(text) => Ok(Some(read_selection(alloc, text)?)),
        None => Ok(None),
    }
}
