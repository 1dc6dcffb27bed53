//! Finds the settings of a project.
use crate::fault::SettingsFault;
use crate::names::whole_name;
use crate::settings::Settings;
use rb_asked::Configured;
use rb_console::{Console, StartError, allocated, cannot_read_on, not_started_on, read_file};
use std::alloc::{AllocError, Global};
use std::process::ExitCode;
use std::rt::Files;

/// The name of a settings file.
pub(crate) const NAME: &str = "resb.toml";

/// The most folders in which a settings file is searched for.
const LEVELS: usize = 64;

/// The settings of a project, and where they are.
#[derive(Drop)]
pub struct Project {
    pub settings: Settings,
    /// The beginning of the settings file's name: empty, or a folder with a slash.
    prefix: String,
    /// The names from the top of the current folder, and of that of the settings file.
    here: String,
    pub(crate) folder: String,
}

impl Project {
    /// Returns the name from the top of a file.
    pub(crate) fn whole(&self, alloc: Global, name: &str) -> Result<String, AllocError> {
        whole_name(alloc, self.here.as_str(), name)
    }

    /// Returns the name of a file, relative to the folder of the settings file, or its name from
    /// the top if it is outside.
    pub fn relative(&self, alloc: Global, name: &str) -> Result<String, AllocError> {
        let whole = self.whole(alloc, name)?;
        match whole
            .as_str()
            .strip_prefix(self.folder.as_str())
            .and_then(|rest| rest.strip_prefix('/'))
        {
            Some(rest) => String::from_str(alloc, rest),
            None => Ok(whole),
        }
    }

    /// Returns the name by which a file of the settings is opened.
    pub fn opened(&self, alloc: Global, name: &str) -> Result<String, AllocError> {
        if name.starts_with('/') {
            return String::from_str(alloc, name);
        }
        format!(in alloc; "{}{}", self.prefix.as_str(), name)
    }
}

/// Finds the nearest settings file, in the current folder or above it.
fn nearest<R: Files + AllocGlobal>(rt: &R) -> Result<Option<String>, AllocError> {
    let mut prefix = String::new(rt.alloc());
    for _ in 0..LEVELS {
        let name = format!(in rt.alloc(); "{}{}", prefix.as_str(), NAME)?;
        if rt.metadata(name.as_str()).is_ok_and(|seen| seen.is_file()) {
            return Ok(Some(name));
        }
        prefix.push_str("../")?;
    }
    Ok(None)
}

/// Returns the name of the settings file, if there is one.
fn settings_name<R: Files + AllocGlobal>(
    rt: &R,
    words: Configured<'_>,
) -> Result<Option<String>, AllocError> {
    match words.file {
        Some(file) => Ok(Some(String::from_str(rt.alloc(), file)?)),
        None if words.is_none => Ok(None),
        None => nearest(rt),
    }
}

/// Makes the project of settings in a file of this name.
fn project_of<R: Files + AllocGlobal>(
    rt: &R,
    settings: Settings,
    name: &str,
) -> Result<Project, AllocError> {
    let alloc = rt.alloc();
    let here = match rt.canonicalize(alloc, ".") {
        Ok(here) => String::from_str(alloc, here.as_str())?,
        Err(_) => String::new(alloc),
    };
    let prefix = match name.rsplit_once('/') {
        Some((folder, _)) => format!(in alloc; "{folder}/")?,
        None => String::new(alloc),
    };
    let folder = whole_name(alloc, here.as_str(), prefix.as_str())?;
    Ok(Project {
        settings,
        prefix,
        here,
        folder,
    })
}

/// Reports what is wrong in a settings file.
fn refuse<R: Eprint>(rt: &R, console: Console, name: &str, fault: SettingsFault) -> ExitCode {
    let SettingsFault::At(line, column, problem) = fault else {
        return not_started_on(rt, console, StartError::Memory);
    };
    let name = console.on_stderr(name);
    let _ = eprintln!(rt; "{name}:{line}:{column}: {problem}");
    ExitCode::from(2)
}

/// Reads the settings of a file.
fn read_project<R: Files + AllocGlobal + Eprint>(
    rt: &R,
    console: Console,
    name: &str,
    rules: &[&'static str],
) -> Result<Project, ExitCode> {
    let text = read_file(rt, name).map_err(|error| cannot_read_on(rt, console, name, "", error))?;
    let settings = Settings::read(rt.alloc(), &text, rules).map_err(|fault| refuse(
        rt, console, name, fault,
    ))?;
    allocated(rt, console, project_of(rt, settings, name))
}

/// Reads the settings file that the words choose, or else the nearest one upward. Without one, all
/// settings are those of an empty file in the current folder. `rules` are the names of all
/// warnings.
///
/// Returns the status of the command if the file can't be read or is refused, once that is
/// reported.
pub fn open_project<R: Files + AllocGlobal + Eprint>(
    rt: &R,
    console: Console,
    words: Configured<'_>,
    rules: &[&'static str],
) -> Result<Project, ExitCode> {
    let project = match settings_name(rt, words) {
        Ok(Some(name)) => return read_project(rt, console, name.as_str(), rules),
        Ok(None) => project_of(rt, Settings::none(rt.alloc()), ""),
        Err(error) => Err(error),
    };
    allocated(rt, console, project)
}
