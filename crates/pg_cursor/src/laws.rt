// What a cursor knows of pages, and when it stays so. These laws have no code.
ghost use Rattle.std.specs.Prelude.{◌≡◌, ◌≤◌, ◌∷◌, ◌++◌, ℕ, List, [], Contains};
ghost use Rattle.pg_acks.specs.declared.position.Position.{Position};
ghost use Rattle.pg_acks.specs.Acked.{AckSets};
ghost use Rattle.pg_page.specs.declared.frame.Frame.{Frame};
ghost use Rattle.pg_page.specs.declared.place.Place.{Place};
ghost use Rattle.pg_page.specs.Frames.{frame_bytes};
ghost use Rattle.pg_page.specs.Pages.{HasFrames, Pages};
ghost use Rattle.pg_pagetx.specs.Standings.{Transactions};
ghost use Rattle.pg_cursor.specs.declared.tail.Tail.{Tail};
ghost use Rattle.pg_cursor.specs.Changes.{IsAppended};
ghost use Rattle.pg_cursor.specs.Entries.{HasFrame, pages_from};
ghost use Rattle.pg_cursor.specs.Places.{IsPassed, page_of};
ghost use Rattle.pg_cursor.specs.Tracking.{Cursor, Tracks};
ghost use Rattle.pg_cursor.specs.Walking.{TailStands};
ghost use Rattle.pg_cursor.specs.Ways.{Way};

/// Over whole pages what stands at places are the frames of their list, each at its position.
pub fn places_of_frames()
    ensures listed { (first : ℕ) (frames : List (Position × Frame)) (pages : Pages) → HasFrames first frames pages →
        (place : Place) (frame : Frame) → HasFrame (pages_from first pages) place frame →
        Contains frames (place.position, frame) }
    ensures placed { (first : ℕ) (frames : List (Position × Frame)) (pages : Pages) → HasFrames first frames pages →
        (position : Position) (frame : Frame) → Contains frames (position, frame) →
        (place : Place) × (place.position ≡ position) × HasFrame (pages_from first pages) place frame }
{}

/// A frame is appended behind the tail of a cursor that tracks its queue: it still does, and its tail stands. A tail that
/// stands on no later page than that of the frame hasn't passed it. A frame more in the list of the pages' frames is
/// appended.
pub fn kept_behind()
    ensures frame { (first : ℕ) (frames : List (Position × Frame)) (position : Position) (frame : Frame)
        (old new : Pages) → HasFrames first frames old → HasFrames first (frames ++ (position, frame) ∷ []) new →
        IsAppended first position (frame_bytes frame) old new }
    ensures behind { (first : ℕ) (position : Position) (payload : List ℕ) (old new : Pages) →
        IsAppended first position payload old new → (tail : Tail) → page_of tail ≤ position.page →
        TailStands tail (pages_from first old) → IsPassed tail position → ⊥ }
    ensures tracks { (first : ℕ) (position : Position) (payload : List ℕ) (old new : Pages) →
        IsAppended first position payload old new → (cursor : Cursor) (acks : AckSets) (txs : Transactions) →
        (IsPassed cursor.tail position → ⊥) → Tracks cursor acks txs (pages_from first old) →
        Tracks cursor acks txs (pages_from first new) }
    ensures stands { (first : ℕ) (position : Position) (payload : List ℕ) (old new : Pages) →
        IsAppended first position payload old new → (tail : Tail) → TailStands tail (pages_from first old) →
        TailStands tail (pages_from first new) }
{}

/// Equal pages are tracked alike.
pub fn same_pages_kept()
    ensures tracks { (old new : Pages) → ((page : ℕ) → new page ≡ old page) →
        (cursor : Cursor) (acks : AckSets) (txs : Transactions) → Tracks cursor acks txs old →
        Tracks cursor acks txs new }
    ensures stands { (old new : Pages) → ((page : ℕ) → new page ≡ old page) → (tail : Tail) →
        TailStands tail old → TailStands tail new }
{}

/// There is one way between two tails, and a way from where another one ended goes on as one.
pub fn ways_join()
    ensures joins { (pages : Pages) (old mid new : Tail) (first second : List (Place × List ℕ)) →
        Way pages old first mid → Way pages mid second new → Way pages old (first ++ second) new }
    ensures one_way { (pages : Pages) (old new : Tail) (a b : List (Place × List ℕ)) → Way pages old a new →
        Way pages old b new → a ≡ b }
{}
