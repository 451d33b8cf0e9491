//! The bodies of replies: rows, the service document and errors as JSON (RFC 8259; OData 4.01 JSON Format), and rows as CSV (RFC 4180), each appended to one buffer in one
//! pass, or written piece by piece. Each function returns the stated text, and another one counts its bytes.
//! What a connection is given are replies that wait to be taken, one after another, each written as it is taken.
#![tactic(auto)]

mod body;
mod cursor;
mod laws;
mod opening;
mod output;
mod pieces;
mod push_rows;
mod put_rows;
mod reply;
mod row_sizes;

pub use body::{
    csv_body, error_body, json_body, number_body, row_body, service_body, short_csv_body,
    short_json_body,
};
pub use cursor::BodyCursor;
pub use laws::{
    counts_are_lengths, csv_reads_back, json_reads_back, pieces_are_bodies, tables_fit_csv,
};
pub use odata_errors::Code;
pub use output::Output;
pub use reply::Reply;
pub use reply_values::push_number;
pub use row_sizes::RowSizes;
