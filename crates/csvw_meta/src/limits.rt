//! The limits of a folder.
ghost use Rattle.std.specs.Prelude.{◌≤◌, ◌≡◌};
ghost use Rattle.csvw_meta.specs.declared.limits.TheConstants.{MOST_FILE_BYTES, MOST_TABLES, MOST_COLUMNS, MOST_TRANSFORMATIONS};

/// The most bytes that a limit may leave a file.
pub const MOST_FILE_BYTES: u32 = 1_073_741_824;
/// The most tables that a limit may leave a folder.
pub const MOST_TABLES: u32 = 256;
/// The most columns that a limit may leave a table.
pub const MOST_COLUMNS: u32 = 256;
/// The most transformations that a limit may leave a query.
pub const MOST_TRANSFORMATIONS: u32 = 8;

/// The most bytes of a metadata text, and of a default in it.
pub(crate) const MOST_METADATA_BYTES: usize = 1_073_741_824;

/// The limits of a folder, each at least 1.
#[derive(Clone, Copy, PartialEq, Eq)]
pub struct Limits {
    /// The most bytes of a file, at most [`MOST_FILE_BYTES`].
    pub file: u32,
    /// The most tables, at most [`MOST_TABLES`].
    pub tables: u32,
    /// The most columns of a table, at most [`MOST_COLUMNS`].
    pub columns: u32,
    /// The most transformations of a query, at most [`MOST_TRANSFORMATIONS`].
    pub transformations: u32,
    ghost file_in_range: { (1 ≤ file) × (file ≤ MOST_FILE_BYTES) },
    ghost tables_in_range: { (1 ≤ tables) × (tables ≤ MOST_TABLES) },
    ghost columns_in_range: { (1 ≤ columns) × (columns ≤ MOST_COLUMNS) },
    ghost transformations_in_range: { (1 ≤ transformations) × (transformations ≤ MOST_TRANSFORMATIONS) },
}

impl Limits {
    /// Returns the greatest of each.
    pub fn greatest() -> Limits
        ensures file { result.file ≡ MOST_FILE_BYTES }
        ensures tables { result.tables ≡ MOST_TABLES }
        ensures columns { result.columns ≡ MOST_COLUMNS }
        ensures transformations { result.transformations ≡ MOST_TRANSFORMATIONS }
    {
        Limits {
            file: MOST_FILE_BYTES,
            tables: MOST_TABLES,
            columns: MOST_COLUMNS,
            transformations: MOST_TRANSFORMATIONS,
        }
    }
}
