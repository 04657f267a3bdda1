// The texts of a list behind IN.
ghost use Rattle.std.specs.Prelude.{◌≡◌, ◌++◌, ◌∷◌, [], IfOk, OnOk, OnErr};

use pg_bytes::Text;
use sqlite_items::Items;
use std::alloc::{AllocError, Global};
use std::marker::Model;

/// The texts of a list behind IN, in the order of the filter. Contracts see the list of them, each as its bytes.
pub struct Texts {
    texts: Items<Text>,
}

impl Model for Texts {
    ghost use Rattle.std.specs.Prelude.{ℕ, List};

    ghost Value = { List (List ℕ) };

    ghost view = { λ texts. texts.texts };
}

impl Drop for Texts {
    fn drop(self) {
        let Texts { texts: _texts } = self;
    }
}

impl Texts {
    /// No texts. Takes no memory.
    pub(crate) fn new(alloc: Global) -> Texts
        ensures { result ≡ [] }
    {
        Texts {
            texts: Items::new(alloc),
        }
    }

    /// The texts as a slice.
    pub fn as_slice(&self) -> &[Text]
        ensures { result.now ≡ self.now }
    {
        self.texts.as_slice()
    }

    /// A second list with the same texts. Fails only where there is no memory for it.
    pub fn copy(&self, alloc: Global) -> Result<Texts, AllocError>
        ensures { IfOk result (λ texts. texts ≡ self.now) }
    {
        let mut texts = Texts::new(alloc);
        let mut rest = self.as_slice();
        while let Some((text, behind)) = rest.split_first() {
            texts.push(text.copy()?)?;
            rest = behind;
        }
        Ok(texts)
    }

    // Appends the text, or nothing where there is no memory for it.
    pub(crate) fn push(&mut self, text: Text) -> Result<(), AllocError>
        ensures ok { OnOk result (self.new ≡ self.old ++ text ∷ []) }
        ensures err { OnErr result (self.new ≡ self.old) }
    {
        self.texts.push(text)
    }
}
