//! Laws of what both ends write: functions that do nothing, whose contracts the definitions keep.
ghost use Rattle.http_client.specs.Laws.{BytesAreResponses, MessagesAreResponses, NoMemoryIsAResponse, RequestsAreHeads, ShortTextsMakeShortHeads};

/// What this client writes, a server reads as the head that says it, and then the body.
pub fn requests_are_heads()
    ensures { RequestsAreHeads }
{}

/// What a server of this project writes, this client reads as a response with its status and body.
pub fn messages_are_responses()
    ensures messages { MessagesAreResponses }
    ensures bytes { BytesAreResponses }
    ensures no_memory { NoMemoryIsAResponse }
{}

/// What a server of this project writes has heads within the limit of this client, if its texts are short.
pub fn short_texts_make_short_heads()
    ensures { ShortTextsMakeShortHeads }
{}
