//! Examples of records of sheets and surveys.

ghost use Rattle.lrs_examples.specs.Records.{SayEachVerb, NameKeysAndNumbers, NameListsAndPositions, NameFieldsOfVerbs, SayEntries};

/// Well formed records of each verb, and their commands.
pub fn records_of_each_verb()
    ensures { SayEachVerb }
{}

/// Keys, verbs, numbers and names that are malformed.
pub fn malformed_keys_and_numbers()
    ensures { NameKeysAndNumbers }
{}

/// Lists and positions that are malformed.
pub fn malformed_lists_and_positions()
    ensures { NameListsAndPositions }
{}

/// Fields of the other verbs that are malformed.
pub fn malformed_fields_of_verbs()
    ensures { NameFieldsOfVerbs }
{}

/// Records of a survey.
pub fn records_of_a_survey()
    ensures { SayEntries }
{}
