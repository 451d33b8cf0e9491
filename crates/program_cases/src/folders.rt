//! Folders in memory under small limits, and two files of one name.
use csvw_meta::{Limits, MOST_COLUMNS, MOST_FILE_BYTES};
use odata_http::{Counted, run};
use odata_serve::request_to;
use std::alloc::{AllocError, Global};
use std::test::Fail;
use table_store::{Catalog, LoadFault, NamedFile};

/// The metadata of one table of two columns.
const META: &str =
    r#"{"url":"a.csv","tableSchema":{"columns":[{"name":"Id","datatype":"integer"},{"name":"Since","datatype":"date"}]}}"#;

/// The metadata of two tables.
const TWO_TABLES: &str =
    r#"{"tables":[{"url":"a.csv","tableSchema":{"columns":[{"name":"Id"}]}},{"url":"b.csv","tableSchema":{"columns":[{"name":"Id"}]}}]}"#;

/// A file of one row.
const ROW: &str = "Id,Since\n7,\n";

/// Metadata, the most bytes of a file and columns of a table, the bytes of files `a.csv`, and the number of the table's rows and blocks, or why the folder
/// is refused: a file has at most as many bytes as the limit, before anything in it is looked at; there is one table at most; and of two files with one
/// name the first counts.
type Case = (
    &'static str,
    u32,
    u32,
    &'static [&'static str],
    &'static str,
);

const FOLDERS: &[Case] = &[
    (META, 9, 2, &["Id,Since\n"], "0 0"),
    (META, 9, 2, &["Id,Since\n\""], "a.csv: FileTooLarge"),
    (META, 100, 2, &[ROW, ""], "1 1"),
    (META, 100, 2, &["", ROW], "a.csv: NoHeader"),
    (META, 100, 2, &[], "a.csv: FileMissing"),
    (META, 100, 1, &[ROW], "csv-metadata.json: TooManyColumns"),
    (
        TWO_TABLES,
        100,
        2,
        &["Id\n"],
        "csv-metadata.json: TooManyTables",
    ),
];

/// Returns a file of the table's name.
fn file_of(alloc: Global, text: &str) -> Result<NamedFile, AllocError> {
    let name = String::from_str(alloc, "a.csv")?;
    let bytes = Vec::from_slice(alloc, text.as_bytes())?;
    Ok(NamedFile { name, bytes })
}

/// Returns the files of these bytes.
fn files(alloc: Global, texts: &[&str]) -> Result<Vec<NamedFile>, AllocError> {
    let mut files = Vec::new(alloc);
    for text in texts {
        files.push(file_of(alloc, text)?)?;
    }
    Ok(files)
}

/// Returns the tables of a folder whose files have the table's name if there are one table and one transformation at most.
fn load(
    alloc: Global,
    meta: &str,
    most: u32,
    columns: u32,
    texts: &[&str],
) -> Result<Result<Catalog, LoadFault>, AllocError> {
    let limits = Limits {
        file: most.clamp(1, MOST_FILE_BYTES),
        tables: 1,
        columns: columns.clamp(1, MOST_COLUMNS),
        transformations: 1,
    };
    let files = files(alloc, texts)?;
    let meta = Vec::from_slice(alloc, meta.as_bytes())?;
    Ok(Catalog::load(alloc, limits, meta, files))
}

/// Returns the number of a table's rows and blocks. It has the name of its file, and names differ in case.
fn table_text(alloc: Global, catalog: &Catalog) -> Result<String, AllocError> {
    match (catalog.table("a"), catalog.table("A")) {
        (Some(table), None) => format!(in alloc; "{} {}", table.rows(), table.blocks()),
        _ => String::from_str(alloc, "no table"),
    }
}

/// Returns what a folder comes to.
fn folder_text(alloc: Global, case: &Case) -> Result<String, AllocError> {
    let (meta, most, columns, texts, _) = case;
    match load(alloc, meta, *most, *columns, texts)? {
        Ok(catalog) => table_text(alloc, &catalog),
        Err(fault) => fault.text(alloc),
    }
}

#[test]
fn folders(rt: HostRuntime) -> Result<(), Fail> {
    for case in FOLDERS {
        let text = folder_text(rt.alloc(), case)?;
        assert!(rt; text.as_str() == case.4, "{text}");
    }
    Ok(())
}

/// Targets, and the bodies of the replies if one transformation is the most.
const APPLIES: &[(&str, &str)] = &[
    (
        "/a?$apply=aggregate($count%20as%20N)",
        "{\"value\":[{\"N\":1}]}",
    ),
    (
        "/a?$apply=filter(Id%20eq%207)/aggregate($count%20as%20N)",
        "{\"error\":{\"code\":\"TooDeep\",\"message\":\"nested too deep\"}}",
    ),
];

/// Returns whether a GET of a target has a reply with this body.
fn has_body(
    alloc: Global,
    catalog: &Catalog,
    target: &str,
    body: &str,
) -> Result<bool, AllocError> {
    let request = request_to(alloc, target)?;
    let mut written = Vec::new(alloc);
    let end = run(
        alloc,
        catalog,
        &mut Counted::new(request.as_bytes()),
        &mut Counted::new(&mut written),
        9,
    );
    Ok(end.is_ok() && written.ends_with(body.as_bytes()))
}

#[test]
fn transformations(rt: HostRuntime) -> Result<(), Fail> {
    let catalog = load(rt.alloc(), META, 100, 2, &[ROW])?.or(Err("a refused folder"))?;
    for (target, body) in APPLIES {
        assert!(rt; has_body(rt.alloc(), &catalog, target, body)?, "{target}");
    }
    Ok(())
}
