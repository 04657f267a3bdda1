// Laws of acknowledged positions.
ghost use Rattle.std.specs.Prelude.{◌≡◌, ℕ, List};
ghost use Rattle.pg_acks.specs.declared.position.Position.{Position};
ghost use Rattle.pg_acks.specs.declared.row.AckRow.{AckRow};
ghost use Rattle.pg_acks.specs.Acked.{AckSets, AreRowsOf, ArePagesOf, is_single, is_whole};

/// What is acknowledged is told by its single positions and its whole pages, and those have one list of runs and one of
/// pages. This law has no code.
pub fn told_by_what_they_have()
    ensures sets { (acks other : AckSets)
        → ((queue : ℕ) (position : Position) → is_single acks queue position ≡ is_single other queue position)
        → ((queue page : ℕ) → is_whole acks queue page ≡ is_whole other queue page) → acks ≡ other }
    ensures rows { (acks : AckSets) (rows others : List AckRow) → AreRowsOf acks rows → AreRowsOf acks others
        → rows ≡ others }
    ensures pages { (acks : AckSets) (pages others : List (ℕ × ℕ)) → ArePagesOf acks pages → ArePagesOf acks others
        → pages ≡ others }
{}
