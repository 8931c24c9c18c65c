//! The configuration.
use std::alloc::{AllocError, Global};

/// A configuration, whose limits follow one another.
#[derive(Drop)]
pub struct Settings {
    name: String,
    limits: Vec<u64>,
}

impl Settings {
    /// Makes the configuration of this version.
    pub fn of_version(alloc: Global, version: u64) -> Result<Settings, AllocError> {
        let name = format!(in alloc; "version {version}")?;
        let mut limits = Vec::new(alloc);
        for step in 0..8u64 {
            limits.push(version.wrapping_add(step))?;
        }
        Ok(Settings { name, limits })
    }

    /// Returns whether it is as it was made.
    pub fn is_whole(&self) -> bool {
        let Some(first) = self.limits.first() else {
            return false;
        };
        let mut wanted = *first;
        for limit in self.limits.as_slice() {
            if *limit != wanted {
                return false;
            }
            wanted = wanted.wrapping_add(1);
        }
        self.name.as_str().starts_with("version ")
    }
}
