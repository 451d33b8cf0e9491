//! The folder `examples/base`, and requests of the folder that is built in.
use odata_serve::{BuiltIn, Folders, NOTES};
use std::alloc::Global;
use std::test::Fail;
use table_store::Catalog;

/// The files of the folder, by their names, and a script that plays a request over it.
pub(crate) const BASE: &[(&str, &str)] = &[
    (
        "csv-metadata.json",
        "{\"@context\":\"http://www.w3.org/ns/csvw\",\"tables\":[\n{\"url\":\"cities.csv\",\"tableSchema\":{\"columns\":[{\"name\":\"Id\",\"datatype\":\"integer\"},{\"name\":\"Name\"},{\"name\":\"Pop\",\"datatype\":\"integer\"},{\"name\":\"Open\",\"datatype\":\"boolean\"},{\"name\":\"Since\",\"datatype\":\"date\"}],\"primaryKey\":\"Id\"}},\n{\"url\":\"people.csv\",\"tableSchema\":{\"columns\":[{\"name\":\"Name\",\"titles\":\"Full name\"},{\"name\":\"Age\",\"datatype\":\"integer\"}],\"primaryKey\":[\"Name\"]}},\n{\"url\":\"codes.csv\",\"tableSchema\":{\"columns\":[{\"name\":\"Id\",\"datatype\":\"integer\"},{\"name\":\"Code\",\"null\":\"NA\"}],\"primaryKey\":\"Id\"}}]}\n",
    ),
    (
        "cities.csv",
        "Id,Name,Pop,Open,Since\n1,Oslo,700000,true,1048-01-01\n2,\"Foo, \"\"Bar\"\"\",,false,\n3,,5,,2024-02-29\n",
    ),
    ("people.csv", "Full name,Age\nO'Hara,41\n"),
    ("codes.csv", "Id,Code\n1,NA\n2,\n3,\"a,b\"\n"),
    (
        "script",
        "open\npiece 0 GET /people HTTP/1.1\\r\\nHost: h\\r\\n\\r\\n\nturn 0\nturn 0\ntake 0 9\nreload .\ndrop 0\n",
    ),
];

/// A request of the rows of `notes` that closes.
pub(crate) const NOTES_REQUEST: &str =
    "GET /notes HTTP/1.1\r\nHost: x\r\nConnection: close\r\n\r\n";

/// Its reply.
pub(crate) const NOTES_REPLY: &str =
    "HTTP/1.1 200 OK\r\nContent-Type: application/json;odata.metadata=none\r\nOData-Version: 4.0\r\nContent-Length: 62\r\nConnection: close\r\n\r\n{\"value\":[{\"Id\":\"1\",\"Text\":\"hello\"},{\"Id\":\"2\",\"Text\":\"a, b\"}]}";

/// Two requests of the number of rows of `notes`, of 39 bytes each.
pub(crate) const COUNTS: &str =
    "GET /notes/$count HTTP/1.1\r\nHost: h\r\n\r\nGET /notes/$count HTTP/1.1\r\nHost: h\r\n\r\n";

/// The reply to one.
pub(crate) const COUNT_REPLY: &str =
    "HTTP/1.1 200 OK\r\nContent-Type: text/plain;charset=utf-8\r\nOData-Version: 4.0\r\nContent-Length: 1\r\n\r\n2";

/// The replies to both.
pub(crate) const COUNT_REPLIES: &str =
    "HTTP/1.1 200 OK\r\nContent-Type: text/plain;charset=utf-8\r\nOData-Version: 4.0\r\nContent-Length: 1\r\n\r\n2HTTP/1.1 200 OK\r\nContent-Type: text/plain;charset=utf-8\r\nOData-Version: 4.0\r\nContent-Length: 1\r\n\r\n2";

/// A head that closes, with one after it.
pub(crate) const CLOSING: &str =
    "GET /notes/$count HTTP/1.1\r\nHost: h\r\nConnection: close\r\n\r\nGET / HTTP/1.1\r\nHost: h\r\n\r\n";

/// The reply to the one that closes.
pub(crate) const CLOSING_REPLY: &str =
    "HTTP/1.1 200 OK\r\nContent-Type: text/plain;charset=utf-8\r\nOData-Version: 4.0\r\nContent-Length: 1\r\nConnection: close\r\n\r\n2";

/// Returns the tables of the folder that is built in.
pub(crate) fn notes(alloc: Global) -> Result<Catalog, Fail> {
    let tables = BuiltIn::new()
        .load(alloc, NOTES)
        .or(Err("a refused folder"))?;
    Ok(tables)
}
