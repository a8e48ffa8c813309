//! Scripts: which event a command or a request calls next, by what was answered so far. Definitions and laws alone, shared by all that
//! calls events one after the other over a port.
//!
//! | In specs/ | What it says |
//! |---|---|
//! | `Scripts` | a script, calls that follow it to its end or begin it, and the script of a list of events |
//! | `Moments` | the moments that a clock gave, one after the other |
//! | `ScriptLaws` | answered calls begin the script of their events, with a refusal behind them, too |
//! | `FirstCalls` | the first call of a legal history, and what a running office carried out for it |
#![tactic(auto)]
