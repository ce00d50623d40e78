//! The path of a file that is made beside another.

ghost use Rattle.std.specs.Prelude.{◌≡◌, IfOk, string_bytes};
ghost use Rattle.std.specs.Path.{path_buf_bytes};
ghost use Rattle.host_paths.specs.Naming.{IsMadePath, new_name, path_beside};

use crate::links::folder_of;
use std::alloc::AllocError;
use std::path::PathBuf;

/// How the name of each new file begins and ends, with a number between.
pub(crate) const BEFORE_NUMBER: &str = ".resfork-";

pub(crate) const AFTER_NUMBER: &str = ".new";

/// A path beside some path, with the name of a new file.
#[derive(Drop)]
pub(crate) struct MadePath {
    path: PathBuf,
    ghost made: { ∥ IsMadePath (path_buf_bytes path) ∥₁ },
}

/// The name of a new file, by its number.
fn new_name(rt: &HostRuntime, number: u32) -> Result<String, AllocError>
    ensures { IfOk result (λ name. string_bytes name ≡ new_name number) }
{
    format!(in rt.alloc(); "{BEFORE_NUMBER}{number}{AFTER_NUMBER}")
}

impl MadePath {
    /// A path beside a path, by its number among those that are tried for the new file.
    pub(crate) fn beside(
        rt: &HostRuntime,
        path: &PathBuf,
        number: u32,
    ) -> Result<MadePath, AllocError>
        ensures { IfOk result (λ it. path_buf_bytes it.path ≡ path_beside (path_buf_bytes path.now) number) }
    {
        let name = new_name(rt, number)?;
        let path = folder_of(path).join(rt.alloc(), name.as_str())?;
        Ok(MadePath { path })
    }

    /// It as a text.
    pub(crate) fn as_str(&self) -> &str
        ensures { result.now ≡ path_buf_bytes self.now.path }
    {
        self.path.as_str()
    }

    /// The path itself.
    pub(crate) fn into_path(self) -> PathBuf
        ensures same { result ≡ self.path }
        ensures made { ∥ IsMadePath (path_buf_bytes result) ∥₁ }
    {
        let MadePath { path } = self;
        path
    }
}
