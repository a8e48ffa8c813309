//! A text of JSON that grows at its end.

ghost use Rattle.std.specs.Prelude.{◌≡◌, ◌++◌, [], ◌∷◌, OnOk};
ghost use Rattle.json.specs.Token.{begin_object, end_object, begin_array, end_array, key as key_token, string as string_token, null as null_token};
ghost use Rattle.serde_json.specs.Data.{Data, string, boolean};
ghost use Rattle.reply_bodies.specs.Objects.{json_count, json_integer, json_text, data_tokens, member_tokens};

use disk_trait::Bytes;
use json::Writer;
use std::alloc::{AllocError, Global};
use std::marker::Model;

/// A text of JSON that grows at its end. As a value it is the list of its tokens.
#[derive(Drop)]
pub struct JsonText {
    out: Writer,
}

impl Model for JsonText {
    ghost use Rattle.std.specs.Prelude.{◌≡◌, List, []};
    ghost use Rattle.json.specs.Token.{Token, tokens_code};

    ghost Value = { List Token };

    ghost coded = { tokens_code };

    ghost view = { λ t. t.out.tokens };

    ghost invariant = { λ t. t.out.before ≡ [] };
}

impl JsonText {
    /// The empty text.
    pub fn new(alloc: Global) -> JsonText
        ensures { result ≡ [] }
    {
        JsonText {
            out: Writer::new(Vec::new(alloc)),
        }
    }

    /// Its bytes, if it is a whole value.
    #[tactic(auto, using(crate::proofs::Tokens::printed))]
    pub fn into_bytes(self) -> Bytes
        ensures { (value : Data) → self ≡ data_tokens value → result ≡ json_text value }
    {
        Bytes::from_vec(self.out.into_inner())
    }

    /// Appends the brace that opens an object.
    pub fn begin_object(&mut self) -> Result<(), AllocError>
        ensures { OnOk result (self.new ≡ self.old ++ begin_object ∷ []) }
    {
        self.out.begin_object()
    }

    /// Appends the brace that closes an object.
    pub fn end_object(&mut self) -> Result<(), AllocError>
        ensures { OnOk result (self.new ≡ self.old ++ end_object ∷ []) }
    {
        self.out.end_object()
    }

    /// Appends the bracket that opens a list.
    pub fn begin_array(&mut self) -> Result<(), AllocError>
        ensures { OnOk result (self.new ≡ self.old ++ begin_array ∷ []) }
    {
        self.out.begin_array()
    }

    /// Appends the bracket that closes a list.
    pub fn end_array(&mut self) -> Result<(), AllocError>
        ensures { OnOk result (self.new ≡ self.old ++ end_array ∷ []) }
    {
        self.out.end_array()
    }

    /// Appends a key, behind which its value has to come.
    pub fn push_key(&mut self, key: &str) -> Result<(), AllocError>
        ensures { OnOk result (self.new ≡ self.old ++ key_token key.now ∷ []) }
    {
        self.out.key(key)
    }

    /// Appends a text as a value.
    pub fn push_string(&mut self, value: &str) -> Result<(), AllocError>
        ensures { OnOk result (self.new ≡ self.old ++ string_token value.now ∷ []) }
    {
        self.out.string(value)
    }

    /// Appends null as a value.
    pub fn push_null(&mut self) -> Result<(), AllocError>
        ensures { OnOk result (self.new ≡ self.old ++ null_token ∷ []) }
    {
        self.out.null()
    }

    /// Appends a member whose value is a text.
    pub fn push_text(&mut self, key: &str, value: &str) -> Result<(), AllocError>
        ensures { OnOk result (self.new ≡ self.old ++ member_tokens (key.now, string value.now)) }
    {
        self.out.key(key)?;
        self.out.string(value)?;
        Ok(())
    }

    /// Appends a member whose value is a number.
    pub fn push_count(&mut self, key: &str, value: u64) -> Result<(), AllocError>
        ensures { OnOk result (self.new ≡ self.old ++ member_tokens (key.now, json_count value)) }
    {
        self.out.key(key)?;
        self.out.u64(value)?;
        Ok(())
    }

    /// Appends a member whose value is a number that may be below 0.
    #[tactic(auto, using(crate::proofs::Tokens::integer_tokens))]
    pub fn push_integer(&mut self, key: &str, value: i64) -> Result<(), AllocError>
        ensures { OnOk result (self.new ≡ self.old ++ member_tokens (key.now, json_integer value)) }
    {
        self.out.key(key)?;
        self.out.i64(value)?;
        Ok(())
    }

    /// Appends a member whose value is a flag.
    pub fn push_flag(&mut self, key: &str, value: bool) -> Result<(), AllocError>
        ensures { OnOk result (self.new ≡ self.old ++ member_tokens (key.now, boolean value)) }
    {
        self.out.key(key)?;
        self.out.boolean(value)?;
        Ok(())
    }
}
