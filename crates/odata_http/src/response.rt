//! What requests are answered with.
ghost use Rattle.std.specs.Prelude.{◌≡◌, ℕ, List, IfOk, length};
ghost use Rattle.cell_types.specs.Value.{CellValue};
ghost use Rattle.http.specs.StatusCode.{IsStatusCode};
ghost use Rattle.query_plan.specs.Plan.{answer_of};
ghost use Rattle.odata_errors.specs.Code.{status_of};
ghost use Rattle.odata_http.specs.Reply.{body_for, error_response, meaning_response, number_response, one_row, reply_of, row_body, row_response, rows_body, service_response, HaveSizesIn};
ghost use Rattle.odata_http.specs.Work.{response_view};

use crate::media::Media;
use crate::reply::lines_before;
use http_heads::Method;
use odata_parse::Format;
use query_exec::{OrderedRows, Rows};
use reply_text::{
    BodyCursor, Code, Reply, RowSizes, csv_body, error_body, number_body, row_body, service_body,
};
use std::alloc::{AllocError, Global};
use table_store::Catalog;

/// The status of a response that has what was asked for (RFC 9110, section 15.3.1).
pub const OK: u16 = 200;

/// A status, and a body with its media type.
#[derive(Drop)]
pub(crate) struct Response {
    pub(crate) status: u16,
    pub(crate) media: Media,
    pub(crate) body: BodyCursor,
}

impl Response {
    /// Returns the response that has what was asked for.
    fn ok(media: Media, body: BodyCursor) -> Response
        ensures { result ≡ record { status = OK; media = media; body = body } }
    {
        Response {
            status: OK,
            media,
            body,
        }
    }
}

/// Returns the status of an error.
fn error_status(code: Code) -> u16
    ensures status { result ≡ status_of code }
    ensures known { IsStatusCode result }
{
    code.status()
}

/// Returns the response that reports an error.
pub(crate) fn error_response(alloc: Global, code: Code) -> Result<Response, AllocError>
    ensures response { IfOk result (λ response. response_view response ≡ error_response code) }
    ensures known { IfOk result (λ response. IsStatusCode response.status) }
{
    let body = error_body(alloc, code)?;
    Ok(Response {
        status: error_status(code),
        media: Media::Json,
        body: BodyCursor::of_bytes(body),
    })
}

/// Returns the service document.
pub(crate) fn service_response(alloc: Global, catalog: &Catalog) -> Result<Response, AllocError>
    ensures response { IfOk result
        (λ response. response_view response ≡ service_response catalog.now) }
    ensures known { IfOk result (λ response. IsStatusCode response.status) }
{
    let body = service_body(alloc, catalog)?;
    Ok(Response::ok(Media::Json, BodyCursor::of_bytes(body)))
}

/// The most rows of a body that is written before it is counted.
const SHORT_ROWS: usize = 512;

/// The most bytes of such a body.
const SHORT_BYTES: usize = 65_536;

/// Returns the body of rows in a format, of which some were counted. A short one is written in one pass, and its length is taken.
fn rows_body(
    alloc: Global,
    rows: OrderedRows,
    format: Format,
    counted: RowSizes,
) -> Result<BodyCursor, AllocError>
    requires counted { HaveSizesIn format counted rows.rows }
    requires untaken { rows.taken ≡ 0 }
    ensures { IfOk result (λ body. body.bytes ≡ rows_body rows.rows format) }
{
    let mut rows = rows;
    if rows.len() <= SHORT_ROWS {
        let few = rows.into_rows(alloc)?;
        let short = match format {
            Format::Json => reply_text::short_json_body(alloc, &few, SHORT_BYTES)?,
            Format::Csv => reply_text::short_csv_body(alloc, &few, SHORT_BYTES)?,
        };
        if let Some(bytes) = short {
            return Ok(BodyCursor::of_bytes(bytes));
        }
        rows = OrderedRows::stored(few);
    }
    match format {
        Format::Json => BodyCursor::json_counted(alloc, rows, counted),
        Format::Csv => BodyCursor::csv_counted(alloc, rows, counted),
    }
}

/// Returns what the rows of a run answer, of which some were counted: if their number alone is asked for, it is their count.
pub(crate) fn answer_response(
    alloc: Global,
    rows: OrderedRows,
    counting: bool,
    format: Format,
    counted: RowSizes,
) -> Result<Response, AllocError>
    requires counted { HaveSizesIn format counted rows.rows }
    requires untaken { rows.taken ≡ 0 }
    ensures response { IfOk result (λ response. response_view response
        ≡ meaning_response format (answer_of counting rows.rows)) }
    ensures known { IfOk result (λ response. IsStatusCode response.status) }
{
    if counting {
        let body = number_body(alloc, rows.table().count().unwrap_or(0))?;
        return Ok(Response::ok(Media::Plain, BodyCursor::of_bytes(body)));
    }
    let body = rows_body(alloc, rows, format, counted)?;
    Ok(Response::ok(Media::of(format), body))
}

/// Returns one row in a format.
pub(crate) fn row_response(
    alloc: Global,
    rows: Rows,
    format: Format,
) -> Result<Response, AllocError>
    requires { length rows.rows ≡ 1 }
    ensures response { IfOk result (λ response. (names : List (List ℕ)) (row : List CellValue)
        → rows ≡ one_row names row → response_view response ≡ row_response format names row) }
    ensures known { IfOk result (λ response. IsStatusCode response.status) }
{
    let body = match format {
        Format::Json => row_body(alloc, &rows)?,
        Format::Csv => csv_body(alloc, &rows)?,
    };
    Ok(Response::ok(Media::of(format), BodyCursor::of_bytes(body)))
}

/// Returns the body, which is left out if the method is HEAD (RFC 9110, section 9.3.2).
fn body_for(alloc: Global, method: Option<Method>, body: BodyCursor) -> BodyCursor
    ensures { result.bytes ≡ body_for method body.bytes }
{
    match method {
        Some(Method::Head) => BodyCursor::of_bytes(Vec::new(alloc)),
        Some(Method::Get) | None => body,
    }
}

/// Returns the reply with that response, to a request of that method. Counts the bytes of its body; they are written as they are taken.
pub(crate) fn reply_of(
    alloc: Global,
    method: Option<Method>,
    response: Response,
    closes: bool,
) -> Result<Reply, AllocError>
    requires { IsStatusCode response.status }
    ensures { IfOk result (λ reply. reply ≡ reply_of method (response_view response) closes) }
{
    let size = response.body.size();
    let lines = lines_before(alloc, response.status, response.media, size, closes)?;
    Reply::start(lines, body_for(alloc, method, response.body))
}
