//! The modules of a project.
use crate::names::whole_name;
use crate::pattern::matches;
use crate::project::Project;
use crate::settings::Section;
use rb_console::{folder_of, in_folder};
use std::alloc::{AllocError, Global};

/// The texts of one module.
#[derive(Drop)]
pub struct ModuleTexts<'a> {
    pub section: Section<'a>,
    /// The name from the top of the folder, if the module has one.
    folder: Option<String>,
    patterns: Vec<&'a str>,
}

/// The modules of a project.
#[derive(Drop)]
pub struct Modules<'a> {
    pub project: &'a Project,
    pub(crate) rows: Vec<ModuleTexts<'a>>,
}

/// Reads one module.
fn module_texts<'a>(
    alloc: Global,
    project: &'a Project,
    section: Section<'a>,
) -> Result<ModuleTexts<'a>, AllocError> {
    let folder = match section.text("folder") {
        Some(folder) => Some(whole_name(alloc, project.folder.as_str(), folder)?),
        None => None,
    };
    Ok(ModuleTexts {
        section,
        folder,
        patterns: section.texts(alloc, "patterns")?,
    })
}

impl<'a> ModuleTexts<'a> {
    /// Checks whether a text belongs to the module, by its names from the top and in the project.
    fn has(&self, whole: &str, relative: &str) -> bool {
        match &self.folder {
            Some(folder) => folder_of(whole) == folder.as_str(),
            None => {
                let name = relative.as_bytes();
                self.patterns
                    .iter()
                    .any(|one| matches(one.as_bytes(), name))
            }
        }
    }

    /// Returns the name of the root's text, relative to the settings' folder.
    fn root(&self, alloc: Global) -> Result<Option<String>, AllocError> {
        match (self.section.text("root"), self.section.text("folder")) {
            (Some(root), _) => Ok(Some(String::from_str(alloc, root)?)),
            (None, Some(folder)) => Ok(Some(in_folder(alloc, folder, "root.txt")?)),
            (None, None) => Ok(None),
        }
    }
}

impl<'a> Modules<'a> {
    /// Reads the modules of a project.
    pub fn of(alloc: Global, project: &'a Project) -> Result<Modules<'a>, AllocError> {
        let mut rows = Vec::new(alloc);
        for section in project.settings.sections(alloc, "module")? {
            rows.push(module_texts(alloc, project, section)?)?;
        }
        Ok(Modules { project, rows })
    }

    /// Returns the first module that a text belongs to.
    pub fn of_text(
        &self,
        alloc: Global,
        name: &str,
    ) -> Result<Option<&ModuleTexts<'a>>, AllocError> {
        if self.rows.is_empty() {
            return Ok(None);
        }
        let whole = self.project.whole(alloc, name)?;
        let relative = self.project.relative(alloc, name)?;
        Ok(
            self.rows
                .iter()
                .find(|row| row.has(whole.as_str(), relative.as_str())),
        )
    }

    /// Returns the name by which the root's text of a module is opened.
    pub(crate) fn opened_root(
        &self,
        alloc: Global,
        module: &ModuleTexts<'_>,
    ) -> Result<Option<String>, AllocError> {
        match module.root(alloc)? {
            Some(root) => Ok(Some(self.project.opened(alloc, root.as_str())?)),
            None => Ok(None),
        }
    }
}
