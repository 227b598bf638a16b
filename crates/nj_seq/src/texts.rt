ghost use Rattle.std.specs.Prelude.{◌≡◌, ◌==◌, ◌++◌, [], Some, length, is_ok, IfOk, if◌then◌else◌, string_bytes};

use std::alloc::{AllocError, Global};
use std::fmt;
use std::marker::Model;

/// A `String` that clauses see as its bytes.
#[derive(Clone, Debug, Drop)]
pub struct Text {
    string: String,
}

impl Model for Text {
    ghost use Rattle.std.specs.Prelude.{List, ℕ, string_bytes};

    ghost Value = { List ℕ };

    ghost view = { λ t. string_bytes t.string };
}

impl Text {
    /// An empty text, which takes no memory until it grows.
    pub fn new(alloc: Global) -> Text
        ensures { result ≡ [] }
    {
        Text {
            string: String::new(alloc),
        }
    }

    /// The string moves in, and no memory is taken.
    pub fn from_string(string: String) -> Text
        ensures { result ≡ string_bytes string }
    {
        Text { string }
    }

    /// A copy of the text.
    pub fn from_str(alloc: Global, text: &str) -> Result<Text, AllocError>
        ensures { IfOk result (λ t. t ≡ text.now) }
    {
        let string = String::from_str(alloc, text)?;
        Ok(Text { string })
    }

    /// The string itself, for the calls that this type lacks. No memory is taken.
    pub fn into_string(self) -> String
        ensures { string_bytes result ≡ self }
    {
        let Text { string } = self;
        string
    }

    /// The text itself.
    pub fn as_str(&self) -> &str
        ensures { result.now ≡ self.now }
    {
        self.string.as_str()
    }

    /// The bytes of the text, in UTF-8.
    pub fn as_bytes(&self) -> &[u8]
        ensures value { result.now ≡ self.now }
        ensures len { length result.now ≡ length self.now }
    {
        self.string.as_bytes()
    }

    /// The number of bytes.
    pub fn len(&self) -> usize
        ensures { result ≡ length self.now }
    {
        self.string.len()
    }

    /// Whether there is no byte.
    pub fn is_empty(&self) -> bool
        ensures { result ≡ (length self.now == 0) }
    {
        self.string.is_empty()
    }

    /// Adds the other text at the end. Without memory the text is as before.
    pub fn push_str(&mut self, other: &str) -> Result<(), AllocError>
        ensures { self.new ≡ (if is_ok result then self.old ++ other.now else self.old) }
    {
        self.string.push_str(other)
    }
}

impl From<String> for Text {
    ghost from_gives = { λ s t. t ≡ string_bytes s };

    fn from(string: String) -> Text {
        Text::from_string(string)
    }
}

impl fmt::Display for Text {
    ghost output = { λ t. Some t };

    fn fmt<W: fmt::Write>(&self, f: &mut fmt::Formatter<W>) -> fmt::Result {
        f.write_str(self.as_str())
    }
}

#[cfg(test)]
mod tests {
    use super::*;
    use std::test::Fail;

    #[test]
    fn a_string_goes_in_and_comes_back(rt: HostRuntime) -> Result<(), Fail> {
        let mut text = Text::from(String::from_str(rt.alloc(), "start")?);
        text.push_str("ed")?;
        assert_eq!(rt; text.len(), 7);
        assert_eq!(rt; text.clone()?.as_bytes(), b"started".as_slice());
        assert_eq!(rt; format!(in rt.alloc(); "{text}")?.as_str(), "started");
        assert_eq!(rt; text.into_string().as_str(), "started");
        assert!(rt; Text::new(rt.alloc()).is_empty());
        Ok(())
    }
}
