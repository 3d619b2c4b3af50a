//! Loading tag files, watch files, scripts and sends files.
ghost use Rattle.std.specs.Prelude.{◌≡◌, ◌+◌, ◌<◌, All, IfErr, IfOk, OnOk, is_some, length, map, option_map, vec_len};
ghost use Rattle.std.specs.Option.{ForSome};
ghost use Rattle.s7_script.specs.Script.{GivesScript};
ghost use Rattle.s7_script.specs.Sends.{IsSized};
ghost use Rattle.s7_script.specs.Tagged.{script_by};
ghost use Rattle.s7_tool_main.specs.Loading.{AnswersText, IsUnloaded, KeepsPaths, ReadsScript, ReadsSends, ReadsTags};
ghost use Rattle.s7_tool_main.specs.Loading.{ReadsText, ReadsWatch, StopsAtTags, StopsAtWatch, fault_of, script_reader};
ghost use Rattle.s7_tool_main.specs.Loading.{sends_reader, tag_reader, watch_reader};
ghost use Rattle.s7_tool_main.specs.Scripts.{AddsScript, ReadsScripts, StopsAt};

use s7_outer::{FileFault, Files};
use s7_script::{
    LoadFault, Script, ScriptFault, ScriptKind, Sends, read_script, read_sends, read_tag_script,
};
use s7_symbol::{TagFaultKind, Tags, read_tags};
use std::alloc::Global;

/// The kind of a text.
#[derive(Clone, Copy, Debug, PartialEq, Eq)]
pub(crate) enum TextKind {
    /// A tag file or a watch file.
    Tags,
    /// A script or a sends file.
    Script,
    /// An area file, or areas that a word gives.
    Areas,
}

/// The path of a file that wasn't loaded, and why.
#[derive(Clone, Copy, Debug, PartialEq, Eq)]
pub(crate) struct Refused<'a> {
    pub path: &'a str,
    pub fault: LoadFault,
}

/// The tags of the file under this path, `None` if no path is given. No file is changed.
pub(crate) fn load_tags<'a, F: Files>(
    alloc: Global,
    files: &mut F,
    path: Option<&'a str>,
) -> Result<Option<Tags>, Refused<'a>>
    ensures ok { IfOk result (λ known.
        ReadsTags (option_map (λ p. p.now) path.entry) (F.shows files.old) (λ found. found ≡ known)) }
    ensures err { IfErr result (λ refused. StopsAtTags (option_map (λ p. p.now) path.entry)
        (F.shows files.old) (F.shows files.new) refused.path.now refused.fault) }
    ensures unchanged { OnOk result (F.shows files.new ≡ F.shows files.old) }
    ensures paths { KeepsPaths (F.shows files.old) (F.shows files.new) }
{
    let Some(path) = path else {
        return Ok(None);
    };
    match load_tag_file(alloc, files, path) {
        Ok(tags) => Ok(Some(tags)),
        Err(fault) => Err(Refused { path, fault }),
    }
}

/// The tags of the file under this path.
fn load_tag_file<F: Files>(alloc: Global, files: &mut F, path: &str) -> Result<Tags, LoadFault>
    ensures ok { IfOk result (λ tags. ReadsText tag_reader path.now (F.shows files.old) (λ read. read ≡ tags)) }
    ensures err { IfErr result (λ fault.
        IsUnloaded tag_reader path.now (F.shows files.old) (F.shows files.new) fault) }
    ensures unchanged { OnOk result (F.shows files.new ≡ F.shows files.old) }
    ensures paths { KeepsPaths (F.shows files.old) (F.shows files.new) }
{
    let mut octets = Vec::new(alloc);
    match files.read(alloc, path, &mut octets) {
        Ok(()) => tags_of(alloc, octets.as_slice()),
        Err(fault) => Err(fault_of(fault)),
    }
}

/// The tags of the watch file under this path, at least one; `None` if no path is given. No file is changed.
pub(crate) fn load_watch<'a, F: Files>(
    alloc: Global,
    files: &mut F,
    path: Option<&'a str>,
) -> Result<Option<Tags>, Refused<'a>>
    ensures ok { IfOk result (λ watched.
        ReadsWatch (option_map (λ p. p.now) path.entry) (F.shows files.old) (λ found. found ≡ watched)) }
    ensures given { IfOk result (λ watched. is_some watched ≡ is_some path.entry) }
    ensures some { IfOk result (λ watched. ForSome watched (λ tags. 0 < length tags)) }
    ensures err { IfErr result (λ refused. StopsAtWatch (option_map (λ p. p.now) path.entry)
        (F.shows files.old) (F.shows files.new) refused.path.now refused.fault) }
    ensures unchanged { OnOk result (F.shows files.new ≡ F.shows files.old) }
    ensures paths { KeepsPaths (F.shows files.old) (F.shows files.new) }
{
    let Some(path) = path else {
        return Ok(None);
    };
    match load_watch_file(alloc, files, path) {
        Ok(tags) => Ok(Some(tags)),
        Err(fault) => Err(Refused { path, fault }),
    }
}

/// The tags of the watch file under this path, at least one.
fn load_watch_file<F: Files>(alloc: Global, files: &mut F, path: &str) -> Result<Tags, LoadFault>
    ensures ok { IfOk result (λ tags. ReadsText watch_reader path.now (F.shows files.old) (λ read. read ≡ tags)) }
    ensures some { IfOk result (λ tags. 0 < length tags) }
    ensures err { IfErr result (λ fault.
        IsUnloaded watch_reader path.now (F.shows files.old) (F.shows files.new) fault) }
    ensures unchanged { OnOk result (F.shows files.new ≡ F.shows files.old) }
    ensures paths { KeepsPaths (F.shows files.old) (F.shows files.new) }
{
    let tags = match load_tag_file(alloc, files, path) {
        Ok(tags) => tags,
        Err(fault) => return Err(fault),
    };
    if tags.as_slice().is_empty() {
        return Err(LoadFault::Line(1));
    }
    Ok(tags)
}

/// The scripts under these paths, whose lines may name these tags. Stops at the first that isn't loaded. No file is
/// changed.
pub(crate) fn load_scripts<'a, F: Files>(
    alloc: Global,
    files: &mut F,
    known: Option<&Tags>,
    paths: &[&'a str],
) -> Result<Vec<Script>, Refused<'a>>
    ensures ok { IfOk result (λ scripts. ReadsScripts (option_map (λ t. t.now) known.entry)
        (map (λ p. p.now) paths.now) (F.shows files.old) scripts.items) }
    ensures len { IfOk result (λ scripts. vec_len scripts ≡ length paths.now) }
    ensures err { IfErr result (λ refused. StopsAt (option_map (λ t. t.now) known.entry) (map (λ p. p.now) paths.now)
        (F.shows files.old) (F.shows files.new) refused.path.now refused.fault) }
    ensures unchanged { OnOk result (F.shows files.new ≡ F.shows files.old) }
    ensures paths { KeepsPaths (F.shows files.old) (F.shows files.new) }
{
    let mut scripts = Vec::new(alloc);
    for path in paths {
        match next_script(alloc, files, known, path, &mut scripts) {
            Ok(()) => {}
            Err(fault) => return Err(Refused { path, fault }),
        }
    }
    Ok(scripts)
}

/// Appends the script under this path.
fn next_script<F: Files>(
    alloc: Global,
    files: &mut F,
    known: Option<&Tags>,
    path: &str,
    scripts: &mut Vec<Script>,
) -> Result<(), LoadFault>
    ensures ok { OnOk result (AddsScript (option_map (λ t. t.now) known.entry) path.now (F.shows files.old)
        scripts.old.items scripts.new.items) }
    ensures len { OnOk result (vec_len scripts.new ≡ vec_len scripts.old + 1) }
    ensures err { IfErr result (λ fault. IsUnloaded (script_reader (option_map (λ t. t.now) known.entry)) path.now
        (F.shows files.old) (F.shows files.new) fault) }
    ensures unchanged { OnOk result (F.shows files.new ≡ F.shows files.old) }
    ensures paths { KeepsPaths (F.shows files.old) (F.shows files.new) }
{
    let script = load_script(alloc, files, known, path)?;
    match scripts.push(script) {
        Ok(()) => Ok(()),
        Err(_) => Err(LoadFault::Memory),
    }
}

/// The script under this path, whose lines may name these tags. No file is changed.
pub(crate) fn load_script<F: Files>(
    alloc: Global,
    files: &mut F,
    known: Option<&Tags>,
    path: &str,
) -> Result<Script, LoadFault>
    ensures ok { IfOk result (λ lines. ReadsScript (option_map (λ t. t.now) known.entry) path.now (F.shows files.old)
        (λ read. read ≡ lines)) }
    ensures err { IfErr result (λ fault. IsUnloaded (script_reader (option_map (λ t. t.now) known.entry)) path.now
        (F.shows files.old) (F.shows files.new) fault) }
    ensures unchanged { OnOk result (F.shows files.new ≡ F.shows files.old) }
    ensures paths { KeepsPaths (F.shows files.old) (F.shows files.new) }
{
    let mut octets = Vec::new(alloc);
    match files.read(alloc, path, &mut octets) {
        Ok(()) => script_of(alloc, known, octets.as_slice()),
        Err(fault) => Err(fault_of(fault)),
    }
}

/// The blocks of the sends file under this path. No file is changed.
pub(crate) fn load_sends<F: Files>(
    alloc: Global,
    files: &mut F,
    path: &str,
) -> Result<Sends, LoadFault>
    ensures ok { IfOk result (λ lines. ReadsSends path.now (F.shows files.old) (λ read. read ≡ lines)) }
    ensures sized { IfOk result (All IsSized) }
    ensures err { IfErr result (λ fault.
        IsUnloaded sends_reader path.now (F.shows files.old) (F.shows files.new) fault) }
    ensures unchanged { OnOk result (F.shows files.new ≡ F.shows files.old) }
    ensures paths { KeepsPaths (F.shows files.old) (F.shows files.new) }
{
    let mut octets = Vec::new(alloc);
    match files.read(alloc, path, &mut octets) {
        Ok(()) => sends_of(alloc, octets.as_slice()),
        Err(fault) => Err(fault_of(fault)),
    }
}

/// The fault of a file that couldn't be read.
fn fault_of(fault: FileFault) -> LoadFault
    ensures { result ≡ fault_of fault }
{
    match fault {
        FileFault::Failed => LoadFault::Failed,
        FileFault::TooLong => LoadFault::TooLong,
        FileFault::Memory => LoadFault::Memory,
    }
}

/// The tags of a text, or the number of its first faulty line.
fn tags_of(alloc: Global, text: &[u8]) -> Result<Tags, LoadFault>
    ensures { AnswersText tag_reader text.now result }
{
    match read_tags(alloc, text) {
        Ok(tags) => Ok(tags),
        Err(fault) if fault.kind == TagFaultKind::Memory => Err(LoadFault::Memory),
        Err(fault) => Err(LoadFault::Line(fault.line)),
    }
}

/// The script of a text whose lines may name these tags, or the number of its first faulty line.
fn script_of(alloc: Global, known: Option<&Tags>, text: &[u8]) -> Result<Script, LoadFault>
    ensures { AnswersText (script_reader (option_map (λ t. t.now) known.entry)) text.now result }
{
    match read_known(alloc, known, text) {
        Ok(script) => Ok(script),
        Err(fault) if fault.kind == ScriptKind::Memory => Err(LoadFault::Memory),
        Err(fault) => Err(LoadFault::Line(fault.line)),
    }
}

/// The script of a text whose lines may name these tags.
fn read_known(alloc: Global, known: Option<&Tags>, text: &[u8]) -> Result<Script, ScriptFault>
    ensures { GivesScript (λ s. s) result (script_by (option_map (λ t. t.now) known.entry) text.now) }
{
    match known {
        Some(tags) => read_tag_script(alloc, text, tags),
        None => read_script(alloc, text),
    }
}

/// The blocks of a text, or the number of its first faulty line.
fn sends_of(alloc: Global, text: &[u8]) -> Result<Sends, LoadFault>
    ensures answers { AnswersText sends_reader text.now result }
    ensures sized { IfOk result (All IsSized) }
{
    match read_sends(alloc, text) {
        Ok(sends) => Ok(sends),
        Err(fault) if fault.kind == ScriptKind::Memory => Err(LoadFault::Memory),
        Err(fault) => Err(LoadFault::Line(fault.line)),
    }
}
