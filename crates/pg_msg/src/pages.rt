// The last pages of a transaction.
ghost use Rattle.std.specs.Prelude.{◌≡◌, ◌++◌, ◌∷◌, [], OnOk, OnErr};

use std::alloc::{AllocError, Global};
use std::marker::Model;

/// For each of some addresses, its id and the last of its pages that has a message of a transaction.
pub struct Pages {
    rows: Vec<(u32, u64)>,
}

impl Model for Pages {
    ghost use Rattle.std.specs.Prelude.{ℕ, List};

    ghost Value = { List (ℕ × ℕ) };

    ghost view = { λ pages. pages.rows.items };
}

impl Drop for Pages {
    fn drop(self) {
        let Pages { rows: _rows } = self;
    }
}

impl Pages {
    /// No pages. Takes no memory.
    pub fn new(alloc: Global) -> Pages
        ensures { result ≡ [] }
    {
        Pages {
            rows: Vec::new(alloc),
        }
    }

    /// The addresses with their last pages as a slice.
    pub fn as_slice(&self) -> &[(u32, u64)]
        ensures { result.now ≡ self.now }
    {
        self.rows.as_slice()
    }

    /// Appends the address with its last page. Fails only where there is no memory for it.
    pub fn push(&mut self, address: u32, last: u64) -> Result<(), AllocError>
        ensures ok { OnOk result (self.new ≡ self.old ++ (address, last) ∷ []) }
        ensures err { OnErr result (self.new ≡ self.old) }
    {
        self.rows.push((address, last))?;
        Ok(())
    }
}

impl PartialEq for Pages {
    ghost use Rattle.std.specs.Prelude.{ℕ, ◌&&◌, nat_eq};
    ghost use Rattle.std.specs.Cmp.{nat_eq_equiv, on_equiv, and_equiv, partial_equiv_from_equiv};
    ghost use Rattle.std.specs.Cmp.Lexicographic.{pointwise, lists_per};

    ghost eq = { pointwise (λ (a b : ℕ × ℕ). nat_eq a.0 b.0 && nat_eq a.1 b.1) };

    ghost laws = { lists_per (partial_equiv_from_equiv (and_equiv (on_equiv (λ (row : ℕ
        × ℕ). row.0) nat_eq_equiv) (on_equiv (λ (row : ℕ × ℕ). row.1) nat_eq_equiv))) };

    fn eq(&self, other: &Pages) -> bool {
        self.as_slice() == other.as_slice()
    }
}

impl Eq for Pages {
    ghost use Rattle.std.specs.Prelude.{ℕ};
    ghost use Rattle.std.specs.Cmp.{nat_eq_equiv, on_equiv, and_equiv};
    ghost use Rattle.std.specs.Cmp.Lexicographic.{lists_equiv};

    ghost laws = { lists_equiv (and_equiv (on_equiv (λ (row : ℕ × ℕ). row.0) nat_eq_equiv) (on_equiv (λ (row : ℕ
        × ℕ). row.1) nat_eq_equiv)) };
}
