ghost use Rattle.std.specs.Prelude.{◌≡◌, List, IfOk, Some, map};
ghost use Rattle.std.specs.Option.{option_copied};
ghost use Rattle.http_query.specs.Query.{query_pairs, pair_text, value_of, broken_query_rule};
ghost use Rattle.http_query.specs.Keys.{rows_of};

use crate::keys::{Key, QueryRule, has_bad_text, has_repeated, has_unknown, lacks};
use std::alloc::{AllocError, Global};
use std::marker::Model;

/// The decoded pairs of a query, in order.
#[derive(Drop)]
pub struct Query {
    pairs: Vec<(String, String)>,
}

impl Model for Query {
    ghost use Rattle.std.specs.Prelude.{List, ℕ, map};
    ghost use Rattle.http_query.specs.Query.{pair_text};

    ghost Value = { List (List ℕ × List ℕ) };

    ghost view = { λ q. map pair_text q.pairs.items };
}

impl Query {
    /// Reads the text of a query, as it stands behind the `?` of a target.
    pub fn read(alloc: Global, text: &[u8]) -> Result<Query, AllocError>
        ensures { IfOk result (λ query. query ≡ query_pairs text.now) }
    {
        let mut pairs = Vec::new(alloc);
        for pair in form_urlencoded::parse(alloc, text).into_owned() {
            pairs.push(pair?)?;
        }
        Ok(Query { pairs })
    }

    /// The value of a key: that of the first pair with this key.
    pub fn value(&self, key: &str) -> Option<&str>
        ensures { option_copied result ≡ value_of key.now self.now }
    {
        first_value(self.pairs.as_slice(), key)
    }

    /// The first rule that the pairs break if these keys are taken; never `Value`, which the forms of the values decide.
    pub fn broken_rule(&self, keys: &[Key]) -> Option<QueryRule>
        ensures { result ≡ broken_query_rule (rows_of keys.now) self.now }
    {
        let pairs = self.pairs.as_slice();
        if has_bad_text(pairs) {
            return Some(QueryRule::Utf8);
        }
        if has_unknown(keys, pairs) {
            return Some(QueryRule::Unknown);
        }
        if has_repeated(pairs) {
            return Some(QueryRule::Repeated);
        }
        if lacks(keys, pairs) {
            return Some(QueryRule::Missing);
        }
        None
    }
}

/// The value of the first pair with a key.
fn first_value<'a>(pairs: &'a [(String, String)], key: &str) -> Option<&'a str>
    ensures { option_copied result ≡ value_of key.now (map pair_text pairs.now) }
{
    for (name, value) in pairs {
        if name.as_str() == key {
            return Some(value.as_str());
        }
    }
    None
}
