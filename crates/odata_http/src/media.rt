//! The media types of bodies.
ghost use Rattle.std.specs.Prelude.{◌≡◌};
ghost use Rattle.odata_http.specs.Media.{media_of, media_type};

use odata_parse::Format;

/// The media type of a body.
#[derive(Clone, Copy)]
pub(crate) enum Media {
    /// JSON without control information (OData JSON Format 4.01, section 3.1).
    Json,
    /// CSV (RFC 7111, section 5.1).
    Csv,
    /// A number, as plain text (OData 4.01 Part 1, section 11.2.10).
    Plain,
}

impl Media {
    /// Returns the media type of rows in a format.
    pub(crate) fn of(format: Format) -> Media
        ensures { result ≡ media_of format }
    {
        match format {
            Format::Json => Media::Json,
            Format::Csv => Media::Csv,
        }
    }

    /// Returns its name.
    pub(crate) fn name(self) -> &'static [u8]
        ensures { result.now ≡ media_type self }
    {
        match self {
            Media::Json => b"application/json;odata.metadata=none",
            Media::Csv => b"text/csv;charset=utf-8",
            Media::Plain => b"text/plain;charset=utf-8",
        }
    }
}
