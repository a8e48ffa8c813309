ghost use Rattle.std.specs.Prelude.{◌≡◌, ◌≤◌, [], ◌∷◌, ◌++◌, length, codes, decimal};
ghost use Rattle.disk_trait.specs.Names.{content_name, real_name};
ghost use Rattle.office_model.specs.RuleNames.{rule_name, put_rule_name};
ghost use Rattle.reply_bodies.specs.Objects.{Text as TextValue, object_text};
ghost use Rattle.reply_bodies.specs.Replies.{refused, refusal_fields};

use crate::members::{empty, named, push_text};
use disk_trait::{FileId, PoolId};
use office_model::{BrokenRule, Refusal};
use short_text::ShortText;

/// The body that says why an event was refused. The response to want of memory has none.
pub fn refusal_text(refusal: &Refusal) -> ShortText
    ensures { result ≡ object_text (refusal_fields refusal.now) }
{
    match refusal {
        Refusal::Broken(rule) => rule_text(*rule),
        Refusal::Halted => named(b"refused", b"Halted"),
        Refusal::DiskFault => named(b"refused", b"DiskFault"),
        Refusal::Damaged { file, .. } => damaged(*file),
        Refusal::Memory => empty(),
    }
}

/// The body that names why a request was refused.
pub fn refused_text(name: &[u8]) -> ShortText
    requires { length name.now ≤ 64 }
    ensures { result ≡ object_text (refused name.now) }
{
    named(b"refused", name)
}

/// The body that names a broken rule.
#[tactic(auto, unfolding(office_model::specs::RuleNames::rule_name, office_model::specs::RuleNames::put_rule_name))]
fn rule_text(rule: BrokenRule) -> ShortText
    ensures { result ≡ object_text (refused (rule_name rule)) }
{
    named(b"refused", rule.name().as_bytes())
}

/// The object that names a damaged file.
#[tactic(auto, unfolding(crate::specs::Objects::object_text))]
fn damaged(file: FileId) -> ShortText
    ensures { result ≡ object_text ((codes "file", TextValue (real_name file)) ∷ (codes "refused", TextValue (codes "Damaged")) ∷ []) }
{
    let name = file_name(file);
    let mut text = ShortText::new();
    text.push(b"{");
    push_text(&mut text, false, b"file", name.as_slice());
    push_text(&mut text, true, b"refused", b"Damaged");
    text.push(b"}");
    text
}

/// The name that a file has in a folder.
fn file_name(file: FileId) -> ShortText
    ensures value { result ≡ real_name file }
    ensures short { length result ≤ 64 }
{
    match file {
        FileId::Head => word(b"head"),
        FileId::Intent => word(b"intent"),
        FileId::Gate => word(b"gate"),
        FileId::Host(host) => numbered(b"host-", u64::from(host)),
        FileId::Table(host, number) => table_name(host, number),
        FileId::Counts(host) => numbered(b"counts-", u64::from(host)),
        FileId::PoolIndex => word(b"pool-index"),
        FileId::PoolBucket(byte) => numbered(b"pool-index-", u64::from(byte)),
        FileId::Partial(host) => numbered(b"partial-", u64::from(host)),
        FileId::Pool(id) => content_name(id),
        FileId::Stage(number) => numbered(b"stage-", number),
    }
}

/// A word.
fn word(text: &[u8]) -> ShortText
    requires { length text.now ≤ 16 }
    ensures value { result ≡ text.now }
    ensures short { length result ≤ 64 }
{
    let mut name = ShortText::new();
    name.push(text);
    name
}

/// A word and a number in decimal.
fn numbered(text: &[u8], number: u64) -> ShortText
    requires { length text.now ≤ 16 }
    ensures value { result ≡ text.now ++ decimal number }
    ensures short { length result ≤ 64 }
{
    let mut name = ShortText::new();
    name.push(text);
    name.push_number(number);
    name
}

/// The name of the table of a backup.
fn table_name(host: u32, number: u32) -> ShortText
    ensures value { result ≡ codes "table-" ++ (decimal host ++ (codes "-" ++ decimal number)) }
    ensures short { length result ≤ 64 }
{
    let mut name = ShortText::new();
    name.push(b"table-");
    name.push_number(u64::from(host));
    name.push(b"-");
    name.push_number(u64::from(number));
    name
}

/// The name of a content of the pool.
fn content_name(id: PoolId) -> ShortText
    ensures value { result ≡ codes "pool-" ++ content_name id }
    ensures short { length result ≤ 64 }
{
    let mut digits = [0u8; 32];
    let Ok(()) = hex::encode_to_slice(&id.digest, &mut digits) else {
        unreachable!()
    };
    let mut name = ShortText::new();
    name.push(b"pool-");
    name.push(&digits);
    name.push(b"-");
    name.push_number(u64::from(id.extension));
    name
}
