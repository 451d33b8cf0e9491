//! What holds of each fault's text: a theorem, which does nothing.
ghost use Rattle.exit_statuses.specs.Laws.{FaultsAreOneLine};

/// What is said of a fault is one line: the name of a table's file has its form, and the control characters of other texts of the metadata are written
/// out.
pub fn faults_are_one_line()
    ensures { FaultsAreOneLine }
{
    csvw_meta::accepted_schemas();
    csvw_meta::texts_tell_faults_apart();
    text_escapes::plain_texts_are_one_line();
}
