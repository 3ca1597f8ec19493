//! Why a URL gives no options.

ghost use Rattle.std.specs.Prelude.{◌≡◌, IfOk};

use crate::keys::other_than_wanted;
use crate::text::OneLine;
use my_frame::{NoMemory, Text};
use std::alloc::Global;
use std::fmt;

/// Why a URL gives no options.
#[derive(Debug, Drop, PartialEq, Eq)]
pub enum UrlError {
    /// The URL asks for a feature that this client lacks.
    FeatureRequired { feature: Text, param: Text },
    /// The URL names no host, or a file.
    Invalid,
    /// An option's value can't be parsed.
    InvalidParamValue { param: Text, value: Text },
    /// The lower bound of a pool is above the upper one, or the upper one is 0.
    InvalidPoolConstraints { min: u64, max: u64 },
    /// The text is no URL.
    Parse,
    /// There is no such option.
    UnknownParameter { param: Text },
    /// The scheme isn't `mysql`.
    UnsupportedScheme { scheme: Text },
}

impl UrlError {
    /// A second value of the same error.
    pub fn copy(&self, alloc: Global) -> Result<UrlError, NoMemory>
        ensures { IfOk result (λ e. e ≡ self.now) }
    {
        Ok(match self {
            UrlError::FeatureRequired { feature, param } => UrlError::FeatureRequired {
                feature: feature.copy(alloc)?,
                param: param.copy(alloc)?,
            },
            UrlError::Invalid => UrlError::Invalid,
            UrlError::InvalidParamValue { param, value } => UrlError::InvalidParamValue {
                param: param.copy(alloc)?,
                value: value.copy(alloc)?,
            },
            UrlError::InvalidPoolConstraints { min, max } => UrlError::InvalidPoolConstraints {
                min: *min,
                max: *max,
            },
            UrlError::Parse => UrlError::Parse,
            UrlError::UnknownParameter { param } => UrlError::UnknownParameter {
                param: param.copy(alloc)?,
            },
            UrlError::UnsupportedScheme { scheme } => UrlError::UnsupportedScheme {
                scheme: scheme.copy(alloc)?,
            },
        })
    }
}

// One line that names the parameter and the cause.
impl fmt::Display for UrlError {
    fn fmt<W: fmt::Write>(&self, f: &mut fmt::Formatter<W>) -> fmt::Result {
        match self {
            UrlError::FeatureRequired { feature, param } => write!(
                f,
                "{} needs {}, which this client lacks",
                OneLine(param.as_str()),
                OneLine(feature.as_str())
            ),
            UrlError::Invalid => f.write_str("no host"),
            UrlError::InvalidParamValue { param, .. } => write!(
                f,
                "the value of {} is {}",
                OneLine(param.as_str()),
                other_than_wanted(param.as_str())
            ),
            UrlError::InvalidPoolConstraints { max: 0, .. } => f.write_str("pool_max is 0"),
            UrlError::InvalidPoolConstraints { min, max } => {
                write!(f, "pool_min {min} is above pool_max {max}")
            }
            UrlError::Parse => f.write_str("no URL"),
            UrlError::UnknownParameter { param } => {
                write!(f, "unknown parameter {}", OneLine(param.as_str()))
            }
            UrlError::UnsupportedScheme { scheme } => {
                write!(f, "unsupported scheme {}", OneLine(scheme.as_str()))
            }
        }
    }
}

impl std::error::Error for UrlError {}
