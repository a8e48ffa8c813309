//! Laws of texts of JSON: functions that do nothing, whose contracts the definitions keep.

ghost use Rattle.json_back.specs.Canonical.{BytesReadBack, TextsReadBack};

/// The compact text of a value of integers and texts, whose objects have their keys in order, is read as that value.
pub fn texts_read_back()
    ensures { TextsReadBack }
{}

/// If its texts are UTF-8, so are the bytes of that text, and they are read as that value.
pub fn bytes_read_back()
    ensures { BytesReadBack }
{}
