// Laws of truth.
ghost use Rattle.std.specs.Prelude.{◌≡◌, ℕ, Bool, List};
ghost use Rattle.pg_msg.specs.declared.properties.Property.{Property as PropertyOf};
ghost use Rattle.pg_parse.specs.declared.op.Op.TheVariants.{LessEqual, GreaterEqual};
ghost use Rattle.pg_parse.specs.declared.tree.Tree.{Tree as TreeOf};
ghost use Rattle.pg_parse.specs.declared.tree.Tree.TheVariants.{And, Between, Compare, Not, Or};
ghost use Rattle.pg_parse.specs.FilterTexts.{IsReadable};
ghost use Rattle.pg_eval.specs.Matching.{IsMatchBy};
ghost use Rattle.pg_eval.specs.Truth.{truth_of};

/// NOT twice is the filter itself, NOT of AND and of OR is OR and AND of NOT, and BETWEEN is two comparisons: also where a
/// part is unknown. These laws have no code.
pub fn as_in_logic()
    ensures not_not { (properties : List PropertyOf) (a : TreeOf)
        → truth_of properties (Not (Not a)) ≡ truth_of properties a }
    ensures not_and { (properties : List PropertyOf) (a b : TreeOf)
        → truth_of properties (Not (And a b)) ≡ truth_of properties (Or (Not a) (Not b)) }
    ensures not_or { (properties : List PropertyOf) (a b : TreeOf)
        → truth_of properties (Not (Or a b)) ≡ truth_of properties (And (Not a) (Not b)) }
    ensures between { (properties : List PropertyOf) (x low high : TreeOf)
        → truth_of properties (Between x low high)
        ≡ truth_of properties (And (Compare GreaterEqual x low) (Compare LessEqual x high)) }
{}

/// By a text that is readable a message matches or doesn't, and never both. These laws have no code.
pub fn one_match()
    ensures one { (text : List ℕ) (properties : List PropertyOf) (a b : Bool) → IsMatchBy text properties a
        → IsMatchBy text properties b → a ≡ b }
    ensures some { (text : List ℕ) (properties : List PropertyOf) → IsReadable text
        → (matched : Bool) × IsMatchBy text properties matched }
{}
