// The program: what its words ask for, over a site and a source.
ghost use Rattle.std.specs.Prelude.{◌≡◌, ◌≢◌, ◌⊎◌, ◌↔◌, List, ℕ, Some, [], ◌∷◌, IsTrue, map, string_bytes};
ghost use Rattle.pg_disk.specs.Sites.{Steps};
ghost use Rattle.pg_disk.specs.Account.{account, IsHonest};
ghost use Rattle.pg_disk.specs.Views.{as_read};
ghost use Rattle.pg_model.specs.Broker.{Durable};
ghost use Rattle.pg_recover.specs.Denotation.{Denotes};
ghost use Rattle.pg_recover.specs.Recovered.{AreIllFormed, HasNoEpoch, KeepsFiles};
ghost use Rattle.pg_recover.specs.WellFormed.{WellFormed};
ghost use Rattle.pg_run.specs.ProgramWords.{AreRunWords, IsDirectory};
ghost use Rattle.pg_run.specs.Ran.{RanOpened, ServesOpened, IsSpared, input_of};
ghost use Rattle.pg_run.specs.Statuses.{CountsStatus, IsAnyBut, IsProgramStatus, code_of, faults_of};

use crate::serving::serve;
use crate::status::Status;
use pg_disk::{Site, Source};
use pg_msg::LIMITS;
use std::alloc::Global;

/// The program over its words, with its own name first, the text of its commands, and its directory and output. It
/// answers the code of its status. The one job so far is `run DIR`.
pub fn pagebroker<S: Site, R: Source>(
    alloc: Global,
    words: &Vec<String>,
    source: &mut R,
    site: &mut S,
) -> u8
    ensures usage { (result ≡ code_of Status.Usage) ↔ (AreRunWords (map string_bytes words.now.items) → ⊥) }
    ensures untouched { result ≡ code_of Status.Usage → (site.new ≡ site.old) × (source.new ≡ source.old) }

    // Replies, statuses, and what a crash at any moment leaves, over whatever files are there.
    ensures ran { result ≢ code_of Status.Usage
        → RanOpened S.Disk LIMITS (input_of R.Source source.old source.new LIMITS.input)
        site.old site.new result }
    ensures served { result ≡ code_of Status.Served → IsHonest (S.tells site.old) → (input : List ℕ)
        → R.rest source.old ≡ Some input →
        (R.rest source.new ≡ Some []) × ServesOpened LIMITS.ids input (account (S.tells site.old)) (account (S.tells site.new)) }
    ensures complete { result ≢ code_of Status.Usage
        → IsSpared S.Disk LIMITS (input_of R.Source source.old source.new LIMITS.input)
        site.old site.new (faults_of S.Disk R.Source site.old site.new source.old source.new) → (result ≡ code_of Status.Served) ⊎ (result ≡ code_of Status.OutOfMemory) }
    ensures denoted { IsAnyBut (Status.Usage ∷ Status.Damaged ∷ Status.DiskFailed ∷ Status.OutOfMemory ∷ []) result
        → IsHonest (S.tells site.old) → (durable : Durable)
        × Denotes (as_read (account (S.tells site.old)).files) durable }
    ensures epochs { IsAnyBut
        (Status.Usage ∷ Status.Damaged ∷ Status.DiskFailed ∷ Status.OutOfMemory ∷ Status.LimitReached ∷ []) result
        → IsHonest (S.tells site.old) → HasNoEpoch LIMITS.epochs (account (S.tells site.old)).files → ⊥ }
    ensures damaged { result ≡ code_of Status.Damaged → AreIllFormed (S.tells site.old)
        × Steps S.Disk site.old site.new KeepsFiles }
    ensures counts { CountsStatus (faults_of S.Disk R.Source site.old site.new source.old source.new) result }
    ensures status { IsProgramStatus result }
{
    if !is_run(words.as_slice()) {
        return Status::Usage.code();
    }
    serve(alloc, source, site, &LIMITS)
}

// Whether the words are those of `run`.
fn is_run(words: &[String]) -> bool
    ensures { IsTrue result ↔ AreRunWords (map string_bytes words.now) }
{
    match words {
        [_, command, directory] => command.as_str() == "run" && is_directory(directory.as_str()),
        _ => false,
    }
}

fn is_directory(word: &str) -> bool
    ensures { IsTrue result ↔ IsDirectory word.now }
{
    !word.is_empty() && word.as_bytes()[0] != b'-'
}
