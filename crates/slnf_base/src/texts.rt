ghost use Rattle.std.specs.Prelude.{◌≡◌, List, ℕ, string_bytes};

use std::marker::Model;

/// A text that contracts see as the list of its UTF-8 bytes.
#[derive(Debug, Drop)]
pub struct Text {
    inside: String,
}

impl Model for Text {
    ghost Value = { List ℕ };

    ghost view = { λ text. string_bytes text.inside };
}

impl Text {
    /// The text of a string.
    pub fn from_string(inside: String) -> Text
        ensures { result ≡ string_bytes inside }
    {
        Text { inside }
    }

    /// The string that the text was made from.
    pub fn into_string(self) -> String
        ensures { string_bytes result ≡ self }
    {
        let Text { inside } = self;
        inside
    }

    /// The text's characters.
    pub fn as_str(&self) -> &str
        ensures { result.now ≡ self.now }
    {
        self.inside.as_str()
    }
}
