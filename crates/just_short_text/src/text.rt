// A text that lies in its own value if it is short.

ghost use Rattle.std.specs.Prelude.{IfOk, OnErr, OnOk, [], length, string_bytes, ◌++◌, ◌≡◌};

use arrayvec::ArrayString;
use std::alloc::{AllocError, Global};
use std::cmp::Ordering;
use std::convert::AsStr;
use std::fmt;
use std::marker::Model;
use std::ops::DerefStr;

/// A text, which allocates nothing if it has at most 16 bytes. It acts as a `&str` where one is wanted. A call whose
/// allocation fails returns `AllocError`, and changes nothing.
///
/// ```rust
/// let mut greeting = Text::from_str(alloc, "hello")?;
/// greeting.push_str(alloc, ", world")?;
/// let greets = greeting.starts_with("hello");
/// ```
#[derive(Drop)]
pub struct Text {
    stored: Stored,
}

// The most bytes that lie in the value itself.
const SHORT: usize = 16;

#[derive(Drop)]
enum Stored {
    Short(ArrayString<SHORT>),
    Long(String),
}

impl Model for Text {
    ghost use Rattle.std.specs.Prelude.{List, ℕ};
    ghost use Rattle.just_short_text.specs.Stored.{bytes_of};

    ghost Value = { List ℕ };

    ghost view = { λ t. bytes_of t.stored };
}

impl Text {
    /// The empty text, with room for `capacity` bytes. `AllocError`, if an allocation fails: nothing is created.
    pub fn with_capacity(alloc: Global, capacity: usize) -> Result<Text, AllocError>
        ensures { IfOk result (λ t. t ≡ []) }
    {
        let stored = if capacity <= SHORT {
            Stored::Short(ArrayString::new())
        } else {
            Stored::Long(String::with_capacity(alloc, capacity)?)
        };
        Ok(Text { stored })
    }

    /// A copy of a text. `AllocError`, if an allocation fails: nothing is created.
    pub fn from_str(alloc: Global, text: &str) -> Result<Text, AllocError>
        ensures { IfOk result (λ t. t ≡ text.now) }
    {
        let stored = if text.len() <= SHORT {
            let mut short = ArrayString::new();
            short.push_str(text);
            Stored::Short(short)
        } else {
            Stored::Long(String::from_str(alloc, text)?)
        };
        Ok(Text { stored })
    }

    /// The text of a string, which is moved. What a string of at most 16 bytes has allocated is freed. It allocates
    /// nothing.
    pub fn from_string(text: String) -> Text
        ensures { result ≡ string_bytes text }
    {
        let stored = if text.len() <= SHORT {
            let mut short = ArrayString::new();
            short.push_str(&text);
            Stored::Short(short)
        } else {
            Stored::Long(text)
        };
        Text { stored }
    }

    /// The text.
    pub fn as_str(&self) -> &str
        ensures { result.now ≡ self.now }
    {
        match &self.stored {
            Stored::Short(text) => text.as_str(),
            Stored::Long(text) => text.as_str(),
        }
    }

    /// The length in bytes.
    pub fn len(&self) -> usize
        ensures { result ≡ length self.now }
    {
        self.as_str().len()
    }

    /// The text as a string, which is moved if it was allocated, and copied otherwise. `AllocError`, if an allocation
    /// fails.
    pub fn into_string(self, alloc: Global) -> Result<String, AllocError>
        ensures { IfOk result (λ text. string_bytes text ≡ self) }
    {
        if let Text {
            stored: Stored::Long(text),
        } = self
        {
            return Ok(text);
        }
        let text = String::from_str(alloc, self.as_str())?;
        Ok(text)
    }

    /// Appends a text. `AllocError`, if an allocation fails: the text is unchanged.
    pub fn push_str(&mut self, alloc: Global, text: &str) -> Result<(), AllocError>
        ensures ok { OnOk result (self.new ≡ self.old ++ text.now) }
        ensures err { OnErr result (self.new ≡ self.old) }
    {
        match &mut self.stored {
            Stored::Long(long) => {
                long.push_str(text)?;
                return Ok(());
            }
            Stored::Short(short) => {
                if text.len() <= short.remaining_capacity() {
                    short.push_str(text);
                    return Ok(());
                }
            }
        }
        let mut long = String::with_capacity(alloc, self.len().saturating_add(text.len()))?;
        long.push_str(self)?;
        long.push_str(text)?;
        self.stored = Stored::Long(long);
        Ok(())
    }
}

/// A copy of a long text is allocated where the text was. `AllocError`, if that fails: nothing is created.
impl Clone for Text {
    ghost is_clone = { λ text copy. copy ≡ text };

    fn clone(&self) -> Result<Text, AllocError> {
        let stored = match &self.stored {
            Stored::Short(text) => Stored::Short(text.clone()?),
            Stored::Long(text) => Stored::Long(text.clone()?),
        };
        Ok(Text { stored })
    }
}

impl DerefStr for Text {
    ghost deref_gives = { λ t bytes. bytes ≡ t };

    fn deref(&self) -> &str {
        self.as_str()
    }
}

impl AsStr for Text {
    ghost text = { λ t. t };

    fn as_str(&self) -> &str {
        self.as_str()
    }
}

impl PartialEq for Text {
    ghost use Rattle.std.specs.Prelude.{nat_eq};
    ghost use Rattle.std.specs.Cmp.{partial_equiv_from_equiv};
    ghost use Rattle.std.specs.Cmp.Lexicographic.{nat_list_eq_equiv, pointwise};

    ghost eq = { pointwise nat_eq };

    ghost laws = { partial_equiv_from_equiv nat_list_eq_equiv };

    fn eq(&self, other: &Text) -> bool {
        self.as_str() == other.as_str()
    }
}

impl Eq for Text {
    ghost use Rattle.std.specs.Cmp.Lexicographic.{nat_list_eq_equiv};

    ghost laws = { nat_list_eq_equiv };
}

impl PartialOrd for Text {
    ghost use Rattle.std.specs.Prelude.{Some};
    ghost use Rattle.std.specs.Cmp.Lexicographic.{slice_cmp, texts_po};
    ghost use Rattle.std.specs.Ordering.{nat_cmp};

    ghost partial_cmp = { λ x y. Some (slice_cmp nat_cmp x y) };

    ghost laws = { texts_po };

    fn partial_cmp(&self, other: &Text) -> Option<Ordering> {
        Some(self.cmp(other))
    }
}

impl Ord for Text {
    ghost use Rattle.std.specs.Prelude.{refl};
    ghost use Rattle.std.specs.Cmp.Lexicographic.{nat_list_cmp_total, slice_cmp, texts_ties};
    ghost use Rattle.std.specs.Ordering.{nat_cmp};

    ghost cmp = { slice_cmp nat_cmp };

    ghost total = { nat_list_cmp_total };

    ghost matches_partial_cmp = { λ x y. refl };

    ghost matches_eq = { texts_ties };

    fn cmp(&self, other: &Text) -> Ordering {
        self.as_str().cmp(other.as_str())
    }
}

impl fmt::Debug for Text {
    fn fmt<W: fmt::Write>(&self, f: &mut fmt::Formatter<W>) -> fmt::Result {
        fmt::Debug::fmt(&self.as_str(), f)
    }
}

impl fmt::Display for Text {
    ghost use Rattle.std.specs.Prelude.{Some};

    ghost output = { λ t. Some t };

    fn fmt<W: fmt::Write>(&self, f: &mut fmt::Formatter<W>) -> fmt::Result {
        f.pad(self.as_str())
    }
}
