//! The digest that a content is called by in the pool. It knows contents and their digests, and nothing of the pool.
//!
//! A [`Namer`] gives each content its digest, as a function of the content alone, whether it is given whole or in
//! pieces. A digest and a number that tells contents of one digest apart are the content's name (`PoolId` of disk_trait).
#![tactic(auto)]

mod first_byte;
mod md5_namer;
mod namer;

pub use first_byte::FirstByteNamer;
pub use md5_namer::Md5Namer;
pub use namer::Namer;
