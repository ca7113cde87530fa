// Paths are texts.

ghost use Rattle.std.specs.Prelude.{IfOk, option_copied, string_bytes, ◌≡◌};
ghost use Rattle.just_text.specs.Path as spec;

use just_syntax::out_of_memory::OutOfMemory;
use std::alloc::Global;
use std::path::{Path, PathBuf};

/// The second path if it begins with `/`, otherwise the two joined by a slash. No slash is added to a base that is
/// empty or ends with one. Upstream's `join`, of two paths.
///
/// # Errors
///
/// `OutOfMemory`, if an allocation fails: nothing is created.
pub fn join(alloc: Global, base: &str, path: &str) -> Result<String, OutOfMemory>
    ensures { IfOk result (λ text. string_bytes text ≡ spec.joined_paths base.now path.now) }
{
    let capacity = base.len().saturating_add(path.len()).saturating_add(1);
    let mut joined = PathBuf::with_capacity(alloc, capacity)?;
    joined.push(base)?;
    joined.push(path)?;
    Ok(joined.into_string())
}

/// The text up to the end of the component before the last: `a` of `a//b`, `/` of `/a`, the empty text of `a`. `None`
/// if there is no component.
///
/// Components are the pieces between slashes, except empty ones and `.`; a `.` at the start of a path is one.
pub fn parent(path: &str) -> Option<&str>
    ensures { option_copied result ≡ spec.parent path.now }
{
    let parent = Path::new(path).parent()?;
    Some(parent.as_str())
}

/// The last component. `None` if there is none, or if it is `.` or `..`. Upstream's `file_name`.
pub fn file_name(path: &str) -> Option<&str>
    ensures { option_copied result ≡ spec.file_name path.now }
{
    Path::new(path).file_name()
}

/// The file name up to its last `.`, or all of it if it has no extension. `None` if there is no file name. Upstream's
/// `file_stem`.
pub fn file_stem(path: &str) -> Option<&str>
    ensures { option_copied result ≡ spec.file_stem path.now }
{
    Path::new(path).file_stem()
}

/// The file name after its last `.`. `None` if there is no file name, if it has no `.`, or if its last `.` is its first
/// byte. Upstream's `extension`.
pub fn extension(path: &str) -> Option<&str>
    ensures { option_copied result ≡ spec.extension path.now }
{
    Path::new(path).extension()
}
