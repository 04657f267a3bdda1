// Laws of the fold.
ghost use Rattle.std.specs.Prelude.{◌≡◌, ◌++◌, ◌∷◌, [], List};
ghost use Rattle.pg_disk.specs.declared.fault.Rule.{Rule as RuleOf};
ghost use Rattle.pg_records.specs.declared.entry.Entry.{Entry};
ghost use Rattle.pg_fold.specs.declared.durable.Durable.{Durable};
ghost use Rattle.pg_records.specs.Entries.{HasFields, HaveFields};
ghost use Rattle.pg_fold.specs.Fold.{fresh, Breaks, Folds, IsApplied};
ghost use Rattle.pg_fold.specs.Sound.{IsSound};

/// Entries lead to one state at most. They may be cut into parts that are folded one behind the other, and what `apply`
/// answers to the next entry is what they give with it. This law has no code.
pub fn fold_in_parts()
    ensures one { (d a b : Durable) (entries : List Entry) → Folds d entries a → Folds d entries b → a ≡ b }
    ensures parts { (d between after : Durable) (first others : List Entry) → Folds d first between
        → Folds between others after → Folds d (first ++ others) after }
    ensures cut { (d after : Durable) (first others : List Entry) → Folds d (first ++ others) after
        → (between : Durable) × Folds d first between × Folds between others after }
    ensures applied { (d before after : Durable) (some : List Entry) (next : Entry) → Folds d some before
        → IsApplied before next after → Folds d (some ++ next ∷ []) after }
    ensures broken { (d before after : Durable) (some : List Entry) (next : Entry) (rule : RuleOf)
        → Folds d some before → Breaks before next rule → Folds d (some ++ next ∷ []) after → ⊥ }
{}

/// What is true of every state that entries give: ids and names differ, numbers are in their ranges, filters are
/// readable, and what a row names is there. This law has no code.
pub fn folded_is_sound()
    ensures fresh { IsSound fresh }
    ensures kept { (before after : Durable) (next : Entry) → IsSound before → HasFields next
        → IsApplied before next after → IsSound after }
    ensures folded { (d : Durable) (entries : List Entry) → HaveFields entries → Folds fresh entries d → IsSound d }
{}
