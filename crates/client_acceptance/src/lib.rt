//! Tests of the client's end of HTTP, alone and against the server's end, of what it asks and reads, and of the words of a push. They use only what the crates show, and stand apart from them,
//! so that each crate is proved once.
#![tactic(auto)]

#[cfg(test)]
mod http_client_tests;
#[cfg(test)]
mod peer_tests;
#[cfg(test)]
mod pull_texts_tests;
#[cfg(test)]
mod push_words_tests;
#[cfg(test)]
mod remote_port_tests;
