//! The command as clap takes it.
ghost use Rattle.std.specs.Prelude.{◌≡◌, false, IfOk};
ghost use Rattle.clap.specs.Walk.{rule_of};
ghost use Rattle.command_line.specs.Commands.{IsCommandOf, option_rule, required_rule, number_rule, required_number_rule, flag_rule, word_rule, number_word_rule, common_app, pipe_app, serve_app, night_app, migrate_app, host_app, dump_folder_app, restore_folder_app, demo_app, pull_app, top_app, links_app, served_app, folders_app, program_app};
ghost use Rattle.command_line.specs.Pushes.{push_folder_app, push_app};

use clap::{Arg, ArgAction, Command, value_parser};
use std::alloc::{AllocError, Global};

/// An option that takes a text and has to be there.
fn required_option<'a>(alloc: Global, name: &'a str) -> Arg<'a>
    ensures rule { rule_of result ≡ required_rule name.now }
    ensures local { result.global ≡ false }
{
    Arg::new(alloc, name).long(name).required(true)
}

/// An option that takes a text and may be left out.
fn optional<'a>(alloc: Global, name: &'a str) -> Arg<'a>
    ensures rule { rule_of result ≡ option_rule name.now }
    ensures local { result.global ≡ false }
{
    Arg::new(alloc, name).long(name)
}

/// An option that takes a `u32` and may be left out.
fn number_option<'a>(alloc: Global, name: &'a str) -> Arg<'a>
    ensures rule { rule_of result ≡ number_rule name.now }
    ensures local { result.global ≡ false }
{
    Arg::new(alloc, name)
        .long(name)
        .value_parser(value_parser!(u32))
}

/// An option that takes a `u32` and has to be there.
fn required_number<'a>(alloc: Global, name: &'a str) -> Arg<'a>
    ensures rule { rule_of result ≡ required_number_rule name.now }
    ensures local { result.global ≡ false }
{
    Arg::new(alloc, name)
        .long(name)
        .required(true)
        .value_parser(value_parser!(u32))
}

/// An option that takes nothing.
fn flag<'a>(alloc: Global, name: &'a str) -> Arg<'a>
    ensures rule { rule_of result ≡ flag_rule name.now }
    ensures local { result.global ≡ false }
{
    Arg::new(alloc, name).long(name).action(ArgAction::SetTrue)
}

/// A word that stands without an option and has to be there.
fn required_word<'a>(alloc: Global, name: &'a str) -> Arg<'a>
    ensures rule { rule_of result ≡ word_rule name.now }
    ensures local { result.global ≡ false }
{
    Arg::new(alloc, name).required(true)
}

/// A word that stands without an option, takes a `u64` and has to be there.
fn number_word<'a>(alloc: Global, name: &'a str) -> Arg<'a>
    ensures rule { rule_of result ≡ number_word_rule name.now }
    ensures local { result.global ≡ false }
{
    Arg::new(alloc, name)
        .required(true)
        .value_parser(value_parser!(u64))
}

/// A subcommand with the two options that each has.
fn subcommand<'a>(alloc: Global, name: &'a str) -> Result<Command<'a>, AllocError>
    ensures { IfOk result (λ c. IsCommandOf (common_app name.now) c) }
{
    Command::new(alloc, name)
        .arg(required_option(alloc, "store"))?
        .arg(optional(alloc, "settings"))
}

/// `pipe`.
fn pipe<'a>(alloc: Global) -> Result<Command<'a>, AllocError>
    ensures { IfOk result (λ c. IsCommandOf pipe_app c) }
{
    subcommand(alloc, "pipe")
}

/// `serve`.
fn serve<'a>(alloc: Global) -> Result<Command<'a>, AllocError>
    ensures { IfOk result (λ c. IsCommandOf serve_app c) }
{
    subcommand(alloc, "serve")?
        .arg(required_option(alloc, "listen"))?
        .arg(number_option(alloc, "connections"))
}

/// `night`.
fn night<'a>(alloc: Global) -> Result<Command<'a>, AllocError>
    ensures { IfOk result (λ c. IsCommandOf night_app c) }
{
    subcommand(alloc, "night")?.arg(flag(alloc, "scheduled"))
}

/// `migrate`.
fn migrate<'a>(alloc: Global) -> Result<Command<'a>, AllocError>
    ensures { IfOk result (λ c. IsCommandOf migrate_app c) }
{
    subcommand(alloc, "migrate")
}

/// A subcommand of one host: with that beside those options.
fn host_subcommand<'a>(alloc: Global, name: &'a str) -> Result<Command<'a>, AllocError>
    ensures { IfOk result (λ c. IsCommandOf (host_app name.now) c) }
{
    subcommand(alloc, name)?.arg(required_option(alloc, "host"))
}

/// `dump-folder`.
fn dump_folder<'a>(alloc: Global) -> Result<Command<'a>, AllocError>
    ensures { IfOk result (λ c. IsCommandOf dump_folder_app c) }
{
    host_subcommand(alloc, "dump-folder")?
        .arg(required_option(alloc, "kind"))?
        .arg(required_word(alloc, "folder"))
}

/// `restore-folder`.
fn restore_folder<'a>(alloc: Global) -> Result<Command<'a>, AllocError>
    ensures { IfOk result (λ c. IsCommandOf restore_folder_app c) }
{
    host_subcommand(alloc, "restore-folder")?
        .arg(required_number(alloc, "number"))?
        .arg(required_word(alloc, "folder"))
}

/// `demo`.
fn demo<'a>(alloc: Global) -> Result<Command<'a>, AllocError>
    ensures { IfOk result (λ c. IsCommandOf demo_app c) }
{
    subcommand(alloc, "demo")?.arg(number_word(alloc, "number"))
}

/// `pull`.
fn pull<'a>(alloc: Global) -> Result<Command<'a>, AllocError>
    ensures { IfOk result (λ c. IsCommandOf pull_app c) }
{
    host_subcommand(alloc, "pull")?.arg(required_option(alloc, "from"))
}

/// The program's name, with help turned off.
fn top<'a>(alloc: Global) -> Command<'a>
    ensures { IsCommandOf top_app result }
{
    Command::new(alloc, "backup_server")
        .disable_help_flag(true)
        .disable_help_subcommand(true)
        .subcommand_required(true)
}

/// The subcommands that serve links.
fn links<'a>(alloc: Global) -> Result<Command<'a>, AllocError>
    ensures { IfOk result (λ c. IsCommandOf links_app c) }
{
    top(alloc)
        .subcommand(pipe(alloc)?)?
        .subcommand(serve(alloc)?)
}

/// Those, the night's, and the migration's.
fn served<'a>(alloc: Global) -> Result<Command<'a>, AllocError>
    ensures { IfOk result (λ c. IsCommandOf served_app c) }
{
    links(alloc)?
        .subcommand(night(alloc)?)?
        .subcommand(migrate(alloc)?)
}

/// Those, and the ones of a folder.
fn folders<'a>(alloc: Global) -> Result<Command<'a>, AllocError>
    ensures { IfOk result (λ c. IsCommandOf folders_app c) }
{
    served(alloc)?
        .subcommand(dump_folder(alloc)?)?
        .subcommand(restore_folder(alloc)?)
}

/// The program's command, with its subcommands.
pub(crate) fn program<'a>(alloc: Global) -> Result<Command<'a>, AllocError>
    ensures { IfOk result (λ c. IsCommandOf program_app c) }
{
    folders(alloc)?
        .subcommand(demo(alloc)?)?
        .subcommand(pull(alloc)?)
}

/// `push-folder`, which names no store.
fn push_folder<'a>(alloc: Global) -> Result<Command<'a>, AllocError>
    ensures { IfOk result (λ c. IsCommandOf push_folder_app c) }
{
    Command::new(alloc, "push-folder")
        .arg(required_option(alloc, "to"))?
        .arg(required_option(alloc, "host"))?
        .arg(required_option(alloc, "kind"))?
        .arg(required_word(alloc, "folder"))
}

/// The command of the words of a push.
pub(crate) fn push_program<'a>(alloc: Global) -> Result<Command<'a>, AllocError>
    ensures { IfOk result (λ c. IsCommandOf push_app c) }
{
    top(alloc).subcommand(push_folder(alloc)?)
}
