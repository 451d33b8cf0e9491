//! What holds of all heads, targets and tables. The functions here are theorems, and do nothing.
ghost use Rattle.odata_request.specs.Laws.{KeysStandAlone, OneRequest};
ghost use Rattle.odata_request.specs.Path.{PathsLead};

/// A head and a target ask for one request at most.
pub fn one_request()
    ensures { OneRequest }
{
    odata_lex::one_list_of_tokens();
    odata_lex::tokens_or_fault();
    odata_parse::one_tree();
}

/// A query with a key has no `$apply`: the row that it asks for is one of the table.
pub fn keys_stand_alone()
    ensures { KeysStandAlone }
{}

/// The segments of a path lead where the path does: to the service document, the rows of a table, how many they are, or the row with a key.
pub fn paths_lead()
    ensures { PathsLead }
{}
