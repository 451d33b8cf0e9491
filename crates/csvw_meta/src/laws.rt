//! The laws of the definitions that [`crate::Schemas::read`] cites: each is a theorem, and does nothing.
ghost use Rattle.csvw_meta.specs.Laws.{AcceptedSchemas, DefaultsAreShort, LevelsAreOfForm, MarkIsDropped, NearestLevel, SchemasOrCause, ProfileSizes, TextsTellFaultsApart};
ghost use Rattle.csvw_meta.specs.Worked.{WorkedMetadata};

use text_escapes::{escaped_texts_are_one_line, plain_texts_are_one_line, texts_stay_apart};

/// Accepted metadata has at least one table and no more than the limit, with different urls of their form and different names, each with
/// at least one column and no more than the limit, with different names of their form, and with a key of places of columns, each once.
pub fn accepted_schemas()
    ensures { AcceptedSchemas }
{}

/// A metadata text has schemas or a cause why it has none, and not both.
pub fn schemas_or_cause()
    ensures { SchemasOrCause }
{}

/// Two faults that say the same are the same: so a cause, which is what a fault says, identifies the fault. Two with the same text are the same if no
/// backslash stands in their keys; else one key may have a control character where the other has its escape. The text of each fault is one line,
/// whatever the metadata has.
pub fn texts_tell_faults_apart()
    ensures { TextsTellFaultsApart }
{
    texts_stay_apart();
    escaped_texts_are_one_line();
    plain_texts_are_one_line();
}

/// One byte order mark in front of a metadata text counts for nothing.
pub fn mark_is_dropped()
    ensures { MarkIsDropped }
{}

/// What a column inherits is what the nearest level says.
pub fn nearest_level()
    ensures { NearestLevel }
{}

/// In accepted metadata what each level says is of its form, also if a nearer level says another.
pub fn levels_are_of_form()
    ensures { LevelsAreOfForm }
{}

/// In accepted metadata no default is longer than the metadata may be.
pub fn defaults_are_short()
    ensures { DefaultsAreShort }
{}

/// The numbers of the profile: a file and a metadata text have at most 2 to the 30 bytes; how many tables, columns and transformations there may
/// be; and how long a name and a url.
pub fn sizes()
    ensures { ProfileSizes }
{}

/// States metadata texts with what they say, and with the first cause against them, worked out by hand.
pub fn worked_metadata()
    ensures { WorkedMetadata }
{}
