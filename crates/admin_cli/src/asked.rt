ghost use Rattle.std.specs.Prelude.{◌≡◌, None, IfOk, IfErr, map};
ghost use Rattle.std.specs.String.{string_bytes};
ghost use Rattle.command_line.specs.Line.{line_of};
ghost use Rattle.admin_cli.specs.Asked.{note_of_settings, defaults_of, IsAsked, IsRefused};

use crate::note::Note;
use browse_http::Interface;
use command_line::{LineFault, Parsed, Work};
use request_events::Defaults;
use settings_file::{Settings, SettingsFault, read_settings};
use std::alloc::{AllocError, Global};

/// What a run is to do, and by which settings.
#[derive(Drop)]
pub struct Asked<'a> {
    pub work: &'a Work,
    pub settings: Settings,
}

/// What is said of words that were not understood.
fn note_of_line(fault: LineFault) -> Note
    ensures usage { fault ≡ LineFault.NoParse → result ≡ Note.Usage }
    ensures memory { fault ≡ LineFault.Memory → result ≡ Note.NoMemory }
{
    match fault {
        LineFault::NoParse => Note::Usage,
        LineFault::Memory => Note::NoMemory,
    }
}

/// What is said of settings that were refused.
fn note_of_settings(fault: SettingsFault) -> Note
    ensures { result ≡ note_of_settings fault }
{
    match fault {
        SettingsFault::Memory => Note::NoMemory,
        _ => Note::BadSettings(fault),
    }
}

/// What the settings add to a request.
fn defaults_of(settings: Settings) -> Defaults
    ensures { result ≡ defaults_of settings }
{
    let Settings {
        zone,
        wake: _,
        period: _,
        rules,
    } = settings;
    Defaults { rules, zone }
}

/// What connections are served by, with these settings, or want of memory.
pub fn interface_of(alloc: Global, settings: Settings) -> Result<Interface, AllocError>
    ensures { IfOk result (λ made. made.defaults ≡ defaults_of settings) }
{
    Interface::new(alloc, defaults_of(settings))
}

/// Looks at the line of the words, and then reads the settings.
pub fn read_asked<'a>(
    alloc: Global,
    parsed: &'a Parsed<'_>,
    settings: &[u8],
) -> Result<Asked<'a>, Note>
    ensures ok { IfOk result (IsAsked (line_of (map string_bytes parsed.now.words.now)) settings.now) }
    ensures err { IfErr result (IsRefused (line_of (map string_bytes parsed.now.words.now)) settings.now) }
{
    let line = match parsed.line() {
        Ok(line) => line,
        Err(fault) => return Err(note_of_line(fault)),
    };
    match read_settings(alloc, settings) {
        Ok(settings) => Ok(Asked {
            work: &line.work,
            settings,
        }),
        Err(fault) => Err(note_of_settings(fault)),
    }
}
