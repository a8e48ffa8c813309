//! That the files of a store are told apart: no two heads, indices of hosts, tables, partial dumps of a host
//! or lists of pooled contents have the same bytes, whatever their layouts. The crate knows layouts alone, and has laws alone: functions of no body, whose
//! clauses they are. They rest on `specs/OneWay`, which follows a grammar through each way in which it is put together:
//! no print begins another, and no two values have one print.
//!
//! A layer that says what files stand for cites the laws of `specs/Files`, as `one_table`.
#![tactic(auto)]

mod laws;

pub use laws::{
    head_is_of_one_value, host_is_of_one_value, partial_is_of_one_value,
    pool_index_is_of_one_value, table_is_of_one_value,
};
