//! How many bytes rows take in JSON (RFC 8259) or in CSV (RFC 4180, section 2): the first rows of an answer, of which more may be to come. None is written.
ghost use Rattle.std.specs.Prelude.{◌≡◌, ◌+◌, ◌-◌, ◌^◌, ◌<◌, ◌≤◌, ℕ, List, IsTrue, length, map, max, string_bytes};
ghost use Rattle.std.specs.List.{concat};
ghost use Rattle.result_rows.specs.Rows.{BeginWith, RowsOf};
ghost use Rattle.reply_text.specs.Pieces.{body_pieces, opening_text, IsNearLongest};
ghost use Rattle.reply_text.specs.RowSizes.{labels_size, AreCsvSizes, AreJsonSizes, CountsMore, HaveSizes, IsRowFrame};
ghost use Rattle.reply_values.specs.Size.{told};

use cell_texts::put_sizes;
use reply_values::text_size;
use result_rows::OrderedRows;
use row_columns::Columns;

/// How many rows are counted together.
const TOGETHER: usize = 64;

/// Returns how many bytes names take in JSON, each with its colon. In CSV rows have none.
fn labels_size<const JSON: bool>(names: &[String]) -> usize
    ensures { result ≡ told (labels_size JSON (map string_bytes names.now)) }
{
    if !JSON {
        return 0;
    }
    let mut size = 0usize;
    for name in names {
        size = size
            .saturating_add(text_size::<true>(name.as_bytes()))
            .saturating_add(1);
    }
    size
}

/// Returns how many bytes rows of that width take without their values: in JSON the names and colons, the commas and the braces, in CSV the commas and the line
/// break. In JSON each row has a comma before it, and the first row is one byte shorter.
pub(crate) fn row_frame<const JSON: bool>(names: &[String], width: usize) -> usize
    requires { IsTrue JSON → width ≡ length names.now }
    ensures { (under : List (List ℕ)) → (IsTrue JSON → under ≡ map string_bytes names.now)
        → IsRowFrame JSON under width result }
{
    labels_size::<JSON>(names)
        .saturating_add(width.saturating_sub(1))
        .saturating_add(2 + usize::from(JSON))
}

/// How many rows were counted, from the first on, how many bytes they take, and how many the longest of them. A number that has more than 64 bits is the greatest
/// that does not.
#[derive(Clone, Copy, Drop)]
pub struct RowSizes {
    len: usize,
    pub(crate) all: usize,
    pub(crate) longest: usize,
}

impl RowSizes {
    /// Returns the sizes of no rows.
    pub fn none() -> RowSizes
        ensures json { (rows : RowsOf) → AreJsonSizes result 0 rows }
        ensures csv { (rows : RowsOf) → AreCsvSizes result 0 rows }
    {
        RowSizes {
            len: 0,
            all: 0,
            longest: 0,
        }
    }

    /// Adds a piece of `size` bytes.
    fn with(self, size: usize) -> RowSizes
        ensures len { result.len ≡ self.len }
        ensures all { result.all ≡ told (self.all + size) }
        ensures longest { result.longest ≡ max self.longest size }
    {
        RowSizes {
            len: self.len,
            all: self.all.saturating_add(size),
            longest: self.longest.max(size),
        }
    }

    /// Counts the rows after those that were counted, as many as there are places.
    fn count_few<const JSON: bool>(&mut self, columns: &Columns, frame: usize, room: &mut [usize])
        requires { self.old.len + length room.old ≤ length columns.now.rows }
        ensures len { self.new.len ≡ self.old.len + length room.old }
        ensures sizes { CountsMore JSON frame columns.now self.old self.new }
    {
        columns.rows_are_wide();
        let _rows = columns.len(); // each row has a number that fits
        put_sizes::<JSON>(columns, self.len, frame, room);
        for i in 0..room.len() {
            *self = self.with(room[i]);
            self.len += 1;
        }
    }

    /// Counts the rows that were not counted yet.
    fn count<const JSON: bool>(&mut self, columns: &Columns, frame: usize)
        ensures len { self.new.len ≡ max self.old.len (length columns.now.rows) }
        ensures sizes { CountsMore JSON frame columns.now self.old self.new }
    {
        let mut room = [0; TOGETHER];
        while self.len < columns.len() {
            let count = TOGETHER.min(columns.len() - self.len);
            self.count_few::<JSON>(columns, frame, &mut room[..count]);
        }
    }

    /// Counts the rows that were not counted yet, as JSON objects under these names.
    pub fn count_json(&mut self, names: &[String], columns: &Columns)
        requires { length columns.now.kinds ≡ length names.now }
        ensures { (rows : RowsOf) (n : ℕ)
            → BeginWith rows (map string_bytes names.now) columns.now.rows
            → AreJsonSizes self.old n rows
            → AreJsonSizes self.new (max n (length columns.now.rows)) rows }
    {
        self.count::<true>(columns, row_frame::<true>(names, columns.width()));
    }

    /// Counts the rows that were not counted yet, as lines of CSV.
    pub fn count_csv(&mut self, columns: &Columns)
        ensures { (rows : RowsOf) (names : List (List ℕ)) (n : ℕ)
            → BeginWith rows names columns.now.rows → AreCsvSizes self.old n rows
            → AreCsvSizes self.new (max n (length columns.now.rows)) rows }
    {
        self.count::<false>(columns, row_frame::<false>(&[], columns.width()));
    }

    /// Returns the sizes of all rows, which are counted anew unless all were.
    fn of_all<const JSON: bool>(self, rows: &OrderedRows) -> RowSizes
        requires { HaveSizes JSON self rows.now.rows }
        ensures have { HaveSizes JSON result rows.now.rows }
        ensures len { result.len ≡ length rows.now.rows.rows }
    {
        if self.len == rows.len() {
            return self;
        }
        let table = rows.table();
        let frame = row_frame::<JSON>(table.names(), table.width());
        let mut sizes = RowSizes::none();
        sizes.count::<JSON>(table.columns(), frame);
        sizes
    }

    /// Returns the sizes of the pieces of a body of rows, of which these were counted, and before which `opening` bytes come.
    pub(crate) fn of_body<const JSON: bool>(self, rows: &OrderedRows, opening: usize) -> RowSizes
        requires counted { HaveSizes JSON self rows.now.rows }
        requires opening { opening ≡ length (opening_text JSON rows.now.rows) }
        ensures all { result.all ≡ told (length (concat (body_pieces JSON rows.now.rows))) }
        ensures longest { result.all < 2 ^ 64 - 1
            → IsNearLongest (body_pieces JSON rows.now.rows) result.longest }
    {
        let rows = self.of_all::<JSON>(rows);
        // The first row has no comma before it.
        let end = (2 * usize::from(JSON)).saturating_sub(rows.len.min(1));
        rows.with(opening).with(end)
    }
}
