// What pages have is one list. These laws have no code.
ghost use Rattle.std.specs.Prelude.{◌≡◌, ◌⊎◌, ◌<◌, ◌^◌, ◌∷◌, ◌++◌, ℕ, List, [], length, slice_get, Some};
ghost use Rattle.pg_acks.specs.declared.position.Position.{Position};
ghost use Rattle.pg_gate.specs.Gated.{AllFit, Batches};
ghost use Rattle.pg_page.specs.declared.frame.Frame.{Frame};
ghost use Rattle.pg_page.specs.declared.place.Place.{Place};
ghost use Rattle.pg_page.specs.Pages.{AllEntriesFit, Entry, HasFrames, Pages, SpellFrames};
ghost use Rattle.pg_page.specs.Places.{IsAt, Passes};

/// Pages have at most one list of frames.
pub fn one_list_of_frames()
    ensures { (first : ℕ) (pages : Pages) (a b : List (Position × Frame)) → HasFrames first a pages →
        HasFrames first b pages → a ≡ b }
{}

/// Payloads that spell frames are short by themselves: the eight bytes before each tell its length.
pub fn frames_fit()
    ensures { (entries : List Entry) (frames : List (Position × Frame)) → SpellFrames entries frames →
        AllEntriesFit entries }
{}

/// What stands at a place of a page with batches is the batch with the place's index, where the lengths of these and of
/// those up to the place have their spelling. In a page of fewer than 2^64 bytes they have.
pub fn place_by_index()
    ensures index { (bytes : List ℕ) (place : Place) (before : _) (payload : List ℕ) (batches : _) →
        AllFit (before ++ payload ∷ []) → AllFit batches → IsAt bytes place before payload → Batches bytes batches →
        slice_get batches place.position.index ≡ Some payload }
    ensures short { (bytes : List ℕ) (batches : _) → length bytes < 2 ^ 64 →
        Passes bytes batches ⊎ Batches bytes batches → AllFit batches }
{}
