//! A law over the definitions alone. Its function does nothing: the law is the contract.

ghost use Rattle.jb_json.specs.Laws.{ObjectsReadBack};

/// What a report is in JSON is a document of JSON, whose value is the object of the report's facts.
pub fn objects_read_back()
    /// The JSON of a report, without its LF, is by the grammar of JSON a document, and its value is the object with a
    /// member for each fact, in their order.
    ensures { ObjectsReadBack }
{}
