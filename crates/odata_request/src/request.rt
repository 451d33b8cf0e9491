//! From a head and the tables to a request.
ghost use Rattle.std.specs.Prelude.{◌<◌, ◌≤◌, IfOk, length, map, string_bytes};
ghost use Rattle.odata_url.specs.Target.{option_view, target_of};
ghost use Rattle.odata_request.specs.Options.{asked_view};
ghost use Rattle.odata_request.specs.Fault.{Yields};
ghost use Rattle.odata_request.specs.Request.{Asks, AsksFor, AsksOf, AsksPath, AsksRows, IsInside, request_view};
ghost use Rattle.odata_request.specs.Resource.{IsOfTables, resource_view};

use crate::fault::RequestFault;
use crate::options::{Texts, asked_format, options_fault};
use crate::query::typed_query;
use crate::resource::{Resource, resource_of};
use http_heads::HeadFault;
use odata_errors::Code;
use odata_parse::Format;
use odata_query::Typed;
use odata_url::{OptionName, Target};
use std::alloc::{AllocError, Global};
use table_store::Catalog;

/// A query on the rows of a table.
#[derive(Drop)]
pub struct RowsRequest {
    /// The number of the table in the catalog, counted from 0.
    pub table: usize,
    pub query: Typed,
    /// The format of the answer.
    pub format: Format,
}

/// What a request asks for. It borrows nothing of the catalog, so it may be answered later.
#[derive(Drop)]
pub enum Request {
    /// Nothing that is served; the code says why.
    Refused(Code),
    /// The service document.
    Service,
    /// Rows of a table.
    Rows(RowsRequest),
}

/// Returns what texts ask of the table of that number in a format.
fn rows_request(
    alloc: Global,
    catalog: &Catalog,
    number: usize,
    texts: Texts<'_>,
    format: Format,
) -> Result<Request, RequestFault>
    requires { number < length catalog.now.tables }
    ensures { Yields request_view
        (AsksRows catalog.now number (asked_view texts.entry) format) result }
{
    let table = &catalog.tables()[number];
    let limit = catalog.limits().transformations;
    let query = typed_query(alloc, limit, table.schema(), texts)?;
    Ok(Request::Rows(RowsRequest {
        table: number,
        query,
        format,
    }))
}

/// Returns what options ask of a resource in a format.
fn request_on(
    alloc: Global,
    catalog: &Catalog,
    resource: Resource<'_>,
    options: &[(OptionName, String)],
    format: Format,
) -> Result<Request, RequestFault>
    requires { IsOfTables catalog.now.tables (resource_view resource) }
    ensures { Yields request_view (AsksOf catalog.now (resource_view resource.entry)
        (map option_view options.now) format) result }
{
    let (number, key, counting) = match (resource, format) {
        (Resource::Service, Format::Json) => return Ok(Request::Service),
        (Resource::Service, Format::Csv) => {
            return Err(RequestFault::Refused(Code::NotAcceptable));
        }
        (Resource::Rows(number), _) => (number, None, false),
        (Resource::Count(number), _) => (number, None, true),
        (Resource::Key(number, key), _) => (number, Some(key), false),
    };
    let texts = Texts::of(key, counting, options);
    rows_request(alloc, catalog, number, texts, format)
}

/// Returns what a path and options ask for.
fn path_request(
    alloc: Global,
    catalog: &Catalog,
    segments: &[String],
    options: &[(OptionName, String)],
) -> Result<Request, RequestFault>
    ensures { Yields request_view (AsksPath catalog.now
        (map string_bytes segments.now) (map option_view options.now)) result }
{
    let resource = resource_of(catalog, segments)?;
    if let Some(code) = options_fault(resource, options) {
        return Err(RequestFault::Refused(code));
    }
    let format = asked_format(options).ok_or(Code::NotAcceptable)?;
    request_on(alloc, catalog, resource, options, format)
}

/// Returns what a head with that fault or none, and that target, asks for, or why it is refused.
fn asked(
    alloc: Global,
    catalog: &Catalog,
    fault: Option<HeadFault>,
    target: &[u8],
) -> Result<Request, RequestFault>
    ensures { Yields request_view (Asks catalog.now fault target.now) result }
{
    if let Some(fault) = fault {
        return Err(RequestFault::from(fault));
    }
    let target = Target::read(alloc, target)?;
    path_request(
        alloc,
        catalog,
        target.segments.as_slice(),
        target.options.as_slice(),
    )
}

/// Returns what a head with that fault or none, and that target, asks for. The fault is that of `http_heads::check_head`.
pub fn request_of(
    alloc: Global,
    catalog: &Catalog,
    fault: Option<HeadFault>,
    target: &[u8],
) -> Result<Request, AllocError>
    requires { length target.now ≤ 8192 }
    ensures asks { IfOk result
        (λ request. AsksFor catalog.now fault target.now (request_view request)) }
    // The number of a table is that of one, and the query is one on its columns.
    ensures inside { IfOk result
        (λ request. IsInside catalog.now (request_view request)) }
{
    odata_types::filters_are_queried();
    odata_types::expressions_are_queried();
    match asked(alloc, catalog, fault, target) {
        Ok(request) => Ok(request),
        Err(RequestFault::Refused(code)) => Ok(Request::Refused(code)),
        Err(RequestFault::NoMemory) => Err(AllocError),
    }
}
