// Messages of built-in functions that return no value.

ghost use Rattle.std.specs.Prelude.{IfOk, string_bytes, ◌≡◌};
ghost use Rattle.just_builtins.specs.Message as spec;

use just_syntax::out_of_memory::OutOfMemory;
use just_syntax::text::Text;
use just_value::list::List;
use std::alloc::Global;

/// The message for something that a host does not find.
pub const NOT_FOUND: &str = "not found";

/// A path has no part of this kind: ``could not extract file name from `..` ``.
pub fn not_extracted(alloc: Global, part: &str, path: &str) -> Result<String, OutOfMemory>
    ensures { IfOk result (λ text. string_bytes text ≡ spec.not_extracted part.now path.now) }
{
    Ok(format!(in alloc; "could not extract {part} from `{path}`")?)
}

/// A path has no directory: ``path `/` has no parent``.
pub fn no_parent(alloc: Global, path: &str) -> Result<String, OutOfMemory>
    ensures { IfOk result (λ text. string_bytes text ≡ spec.no_parent path.now) }
{
    Ok(format!(in alloc; "path `{path}` has no parent")?)
}

/// The justfile has no directory.
pub fn no_justfile_directory(alloc: Global, path: &str) -> Result<String, OutOfMemory>
    ensures { IfOk result (λ text. string_bytes text ≡ spec.no_justfile_directory path.now) }
{
    Ok(format!(in alloc; "could not resolve justfile directory, justfile `{path}` had no parent")?)
}

/// A text is not a boolean: `` `yes` is not a valid boolean string``.
pub fn not_boolean(alloc: Global, text: &str) -> Result<String, OutOfMemory>
    ensures { IfOk result (λ message. string_bytes message ≡ spec.not_boolean text.now) }
{
    Ok(format!(in alloc; "`{text}` is not a valid boolean string")?)
}

/// A value of two elements or more is not a boolean.
pub fn many_for_boolean(alloc: Global) -> Result<String, OutOfMemory>
    ensures { IfOk result (λ message. string_bytes message ≡ spec.many_for_boolean) }
{
    Ok(String::from_str(
        alloc,
        "multi-element lists cannot be converted into booleans",
    )?)
}

/// The case of a text cannot be changed: `` `é` holds characters past ASCII``.
pub fn past_ascii(alloc: Global, text: &str) -> Result<String, OutOfMemory>
    ensures { IfOk result (λ message. string_bytes message ≡ spec.past_ascii text.now) }
{
    Ok(format!(in alloc; "`{text}` holds characters past ASCII")?)
}

/// There is no recipe.
pub fn outside_recipe(alloc: Global) -> Result<String, OutOfMemory>
    ensures { IfOk result (λ message. string_bytes message ≡ spec.outside_recipe) }
{
    Ok(String::from_str(alloc, "`recipe_name()` can only be used within a recipe")?)
}

/// The host has no text for a built-in function.
pub fn no_answer(alloc: Global, name: &str) -> Result<String, OutOfMemory>
    ensures { IfOk result (λ message. string_bytes message ≡ spec.unanswered name.now) }
{
    Ok(format!(in alloc; "`{name}` has no answer")?)
}

/// There is no directory of a kind: `cache directory not found`.
pub fn no_directory(alloc: Global, word: &str) -> Result<String, OutOfMemory>
    ensures { IfOk result (λ message. string_bytes message ≡ spec.no_directory word.now) }
{
    Ok(format!(in alloc; "{word} directory not found")?)
}

/// A directory's path is not text.
pub fn directory_not_unicode(alloc: Global, word: &str, text: &str) -> Result<String, OutOfMemory>
    ensures { IfOk result (λ message. string_bytes message ≡ spec.directory_not_unicode word.now text.now) }
{
    Ok(format!(in alloc; "unable to convert {word} directory path to string: {text}")?)
}

/// A directory cannot be determined.
pub fn directory_unreadable(alloc: Global, word: &str, text: &str) -> Result<String, OutOfMemory>
    ensures { IfOk result (λ message. string_bytes message ≡ spec.directory_unreadable word.now text.now) }
{
    Ok(format!(in alloc; "{word} directory cannot be read: {text}")?)
}

/// There is no canonical path: ``I/O error canonicalizing `a`: not found``.
pub fn not_canonicalized(alloc: Global, path: &str, text: &str) -> Result<String, OutOfMemory>
    ensures { IfOk result (λ message. string_bytes message ≡ spec.not_canonicalized path.now text.now) }
{
    Ok(format!(in alloc; "I/O error canonicalizing `{path}`: {text}")?)
}

/// A canonical path is not text.
pub fn canonical_not_unicode(alloc: Global, text: &str) -> Result<String, OutOfMemory>
    ensures { IfOk result (λ message. string_bytes message ≡ spec.canonical_not_unicode text.now) }
{
    Ok(format!(in alloc; "canonical path is not valid unicode: {text}")?)
}

/// A file has no text: ``I/O error reading `a`: not found``.
pub fn not_read(alloc: Global, path: &str, text: &str) -> Result<String, OutOfMemory>
    ensures { IfOk result (λ message. string_bytes message ≡ spec.not_read path.now text.now) }
{
    Ok(format!(in alloc; "I/O error reading `{path}`: {text}")?)
}

/// There is no executable with this name.
pub fn no_executable(alloc: Global, name: &str) -> Result<String, OutOfMemory>
    ensures { IfOk result (λ message. string_bytes message ≡ spec.no_executable name.now) }
{
    Ok(format!(in alloc; "could not find executable `{name}`")?)
}

/// The running program's path cannot be determined.
pub fn executable_unknown(alloc: Global, text: &str) -> Result<String, OutOfMemory>
    ensures { IfOk result (λ message. string_bytes message ≡ spec.executable_unknown text.now) }
{
    Ok(format!(in alloc; "error getting current executable: {text}")?)
}

/// The running program's path is not text.
pub fn executable_not_unicode(alloc: Global, text: &str) -> Result<String, OutOfMemory>
    ensures { IfOk result (λ message. string_bytes message ≡ spec.executable_not_unicode text.now) }
{
    Ok(format!(in alloc; "executable path is not valid unicode: {text}")?)
}

/// The value of an environment variable is not text.
pub fn variable_not_unicode(alloc: Global, key: &str, text: &str) -> Result<String, OutOfMemory>
    ensures { IfOk result (λ message. string_bytes message ≡ spec.variable_not_unicode key.now text.now) }
{
    Ok(format!(in alloc; "environment variable `{key}` is not unicode: `{text}`")?)
}

/// The value of an environment variable cannot be determined.
pub fn variable_unreadable(alloc: Global, key: &str, text: &str) -> Result<String, OutOfMemory>
    ensures { IfOk result (λ message. string_bytes message ≡ spec.variable_unreadable key.now text.now) }
{
    Ok(format!(in alloc; "environment variable `{key}` cannot be read: {text}")?)
}

/// None of these variables is set: ``environment variables `a` and `b` not present``.
pub fn no_variable(alloc: Global, keys: &[Text]) -> Result<String, OutOfMemory>
    ensures { IfOk result (λ message. string_bytes message ≡ spec.no_variable keys.now) }
{
    match keys {
        [] => Ok(String::from_str(alloc, "empty environment variable list with no default")?),
        [key] => Ok(format!(in alloc; "environment variable `{key}` not present")?),
        _ => {
            let list = List::and_ticked(alloc, keys)?;
            Ok(format!(in alloc; "environment variables {list} not present")?)
        }
    }
}
