use crate::finding::Finding;

/// The number of keys of a locale with each finding.
#[derive(Clone, Copy)]
pub struct Counts {
    pub missing: u64,
    pub unused: u64,
    pub same: u64,
    pub other_type: u64,
    pub other_arguments: u64,
}

impl Counts {
    pub fn none() -> Counts {
        Counts {
            missing: 0,
            unused: 0,
            same: 0,
            other_type: 0,
            other_arguments: 0,
        }
    }

    pub fn of(self, finding: Finding) -> u64 {
        match finding {
            Finding::Missing => self.missing,
            Finding::Unused => self.unused,
            Finding::Same => self.same,
            Finding::OtherType => self.other_type,
            Finding::OtherArguments => self.other_arguments,
        }
    }

    /// Counts a finding.
    pub fn add(&mut self, finding: Finding) {
        match finding {
            Finding::Missing => self.missing = self.missing.saturating_add(1),
            Finding::Unused => self.unused = self.unused.saturating_add(1),
            Finding::Same => self.same = self.same.saturating_add(1),
            Finding::OtherType => self.other_type = self.other_type.saturating_add(1),
            Finding::OtherArguments => {
                self.other_arguments = self.other_arguments.saturating_add(1);
            }
        }
    }
}
