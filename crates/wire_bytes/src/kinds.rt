//! What holds of the kinds of field, whoever reads and writes them.

ghost use Rattle.std.specs.Prelude.{◌≡◌, ⊤, List, ℕ, FitsSigned};
ghost use Rattle.std.specs.Int.{Width};
ghost use Rattle.wire_bytes.specs.Layout.{IsFieldWidth, number_bytes, IsNumber, signed_bytes, text_bytes, IsText, flag_bytes};
ghost use Rattle.wire_bytes.specs.Kind.{IsReadOneWay};
ghost use Rattle.wire_bytes.specs.Seal.{sealed};

/// The layout of a field is no proper prefix of the layout of another of its kind, and tells its value: so what was
/// written in a row can be read in one way alone.
pub fn no_field_begins_another()
    ensures numbers { (w : Width) → IsFieldWidth w → IsReadOneWay (IsNumber w) (number_bytes w) }
    ensures signed { (w : Width) → IsFieldWidth w → IsReadOneWay (FitsSigned w) (signed_bytes w) }
    ensures texts { (w : Width) → IsFieldWidth w → IsReadOneWay (IsText w) (text_bytes w) }
    ensures flags { IsReadOneWay (λ _. ⊤) flag_bytes }
    ensures seals { (a b : List ℕ) → sealed a ≡ sealed b → a ≡ b }
{}
