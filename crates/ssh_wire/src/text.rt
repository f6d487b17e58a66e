// A text that owns its bytes.
ghost use Rattle.std.specs.Prelude.{◌≡◌, IfOk, IfErr, IsTrue, ◌↔◌, IsUtf8};
ghost use Rattle.std.specs.Prelude.{bytes_eq};
ghost use Rattle.std.specs.Cmp.{partial_equiv_from_equiv};
ghost use Rattle.std.specs.Cmp.Lexicographic.{nat_list_eq_equiv};
ghost use Rattle.ssh_wire.specs.declared.error.WireError.TheVariants.{NoMemory};

use crate::WireError;
use bytes::ByteStr;
use std::alloc::Global;
use std::marker::Model;

/// A text in UTF-8 that owns its bytes. A clause sees the bytes.
#[derive(Debug, Drop)]
pub struct Text {
    content: ByteStr,
}

impl Model for Text {
    ghost use Rattle.std.specs.Prelude.{ℕ, List, IsUtf8};

    ghost Value = { List ℕ };

    ghost view = { λ text. text.content };

    ghost invariant = { λ text. IsUtf8 text.content };
}

impl Text {
    /// A copy of this text.
    pub fn new(alloc: Global, text: &str) -> Result<Text, WireError>
        ensures ok { IfOk result (λ t. t ≡ text.now) }
        ensures memory { IfErr result (λ e. e ≡ NoMemory) }
    {
        Ok(Text {
            content: ByteStr::copy_from_str(alloc, text)?,
        })
    }

    /// The text.
    pub fn as_str(&self) -> &str
        ensures { result.now ≡ self.now }
    {
        self.content.as_str()
    }

    /// An equal text, which shares the bytes where it can.
    pub fn copy(&self) -> Result<Text, WireError>
        ensures ok { IfOk result (λ t. t ≡ self.now) }
        ensures memory { IfErr result (λ e. e ≡ NoMemory) }
    {
        Ok(Text {
            content: self.content.clone()?,
        })
    }
}

impl PartialEq for Text {
    ghost eq = { λ a b. bytes_eq a b };

    ghost laws = { partial_equiv_from_equiv nat_list_eq_equiv };

    fn eq(&self, other: &Text) -> bool {
        self.as_str() == other.as_str()
    }
}

impl Eq for Text {
    ghost laws = { nat_list_eq_equiv };
}
