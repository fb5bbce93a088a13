ghost use Rattle.std.specs.Prelude.{◌≡◌, Some};
ghost use Rattle.sc_store_config.specs.Configs.{error_text};
ghost use Rattle.sc_store_config.specs.declared.config_error.ConfigError.TheVariants as errors;

use sc_entry::{NoMemory, Text};
use std::alloc::{AllocError, AllocFailed};
use std::fmt;

/// Why no store is made of a configuration.
#[derive(Debug, Drop)]
pub enum ConfigError {
    NoMemory,
    /// The chain has a level of this name, and nothing that it could take. White space at its ends is gone.
    ConfigFault(Text),
}

impl From<NoMemory> for ConfigError {
    ghost from_gives = { λ _ error. error ≡ errors.NoMemory };

    fn from(_: NoMemory) -> ConfigError {
        ConfigError::NoMemory
    }
}

impl From<AllocError> for ConfigError {
    ghost from_gives = { λ _ error. error ≡ errors.NoMemory };

    fn from(_: AllocError) -> ConfigError {
        ConfigError::NoMemory
    }
}

impl<T: Drop> From<AllocFailed<T>> for ConfigError {
    ghost from_gives = { λ _ error. error ≡ errors.NoMemory };

    fn from(_: AllocFailed<T>) -> ConfigError {
        ConfigError::NoMemory
    }
}

impl fmt::Display for ConfigError {
    ghost output = { λ error. Some (error_text error) };

    fn fmt<W: fmt::Write>(&self, f: &mut fmt::Formatter<W>) -> fmt::Result {
        match self {
            ConfigError::NoMemory => f.write_str("out of memory"),
            ConfigError::ConfigFault(name) => {
                write!(f, "Cache level '{}' is not configured", name.as_str())
            }
        }
    }
}

impl std::error::Error for ConfigError {}
