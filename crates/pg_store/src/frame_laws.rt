// The frames that stores stand for, as pages are made and written and as a crash leaves them. These laws have no code.
ghost use Rattle.std.specs.Prelude.{◌≡◌, ◌<◌, ◌≤◌, ◌+◌, ℕ, List, [], ◌∷◌, ◌++◌, length, Option, Some};
ghost use Rattle.pg_acks.specs.declared.position.Position.{Position};
ghost use Rattle.pg_disk.specs.Account.{Account, account, IsHonest};
ghost use Rattle.pg_disk.specs.Files.{Files};
ghost use Rattle.pg_disk.specs.Views.{as_left, as_read};
ghost use Rattle.pg_page.specs.declared.frame.Frame.{Frame};
ghost use Rattle.pg_page.specs.declared.place.Place.{Place};
ghost use Rattle.pg_page.specs.Frames.{SpellsFrame};
ghost use Rattle.pg_page.specs.Pages.{HasFrames, HasPages, Pages, pages_of};
ghost use Rattle.pg_page.specs.Rules.{ArePages, Known, MayStand};
ghost use Rattle.pg_store.specs.declared.store.NormalStore.{NormalStore};
ghost use Rattle.pg_store.specs.declared.store.PagingStore.{PagingStore};
ghost use Rattle.pg_store.specs.declared.store.Store.{Store};
ghost use Rattle.pg_store.specs.declared.store.Store.TheVariants.{Paging};
ghost use Rattle.pg_store.specs.Framed.{Frames, FramesOf, HasOldFramesOrMore, IsNewId, MayAllStand, StandOnce};
ghost use Rattle.pg_store.specs.Framed.{StandsForFrames, with_frame};
ghost use Rattle.pg_store.specs.Pages.{FilesNow, IsLast, LeftPages, QuietBefore, SamePages, States, SurelyHave};
ghost use Rattle.pg_store.specs.Pages.{states_of};
ghost use Rattle.pg_store.specs.Stores.{GoesTo, IsNormal, IsReady, LeavesNone, MayPage, Paged, Reopens, Starts};
ghost use Rattle.pg_store.specs.Stores.{address_of_paging, address_of_store, first_of, first_of_normal};
ghost use Rattle.pg_store.specs.Stores.{first_of_store, last_of_store};

/// What a store knows of frames: it is ready for its calls, the frames stand on where other files change, and after
/// `page` there is one more behind them.
pub fn frames_stand()
    ensures ready { (store : Store) (frames : Frames) (s : States) → StandsForFrames store frames s → IsReady store s }
    ensures elsewhere { (store : Store) (frames : Frames) (files now : FilesNow) →
        SamePages (address_of_store store) files now →
        StandsForFrames store frames (states_of files (address_of_store store)) →
        StandsForFrames store frames (states_of now (address_of_store store)) }
    ensures started { (store : NormalStore) (next : PagingStore) (s t : States) → IsNormal store s →
        Starts store next s t → StandsForFrames (Paging next) [] t }
    ensures paged { (store next : PagingStore) (place : Place) (frames : Frames) (payload : List ℕ) (frame : Frame)
        (s t : States) → SpellsFrame payload frame → Paged store payload next place s t →
        StandsForFrames (Paging store) frames s →
        StandsForFrames (Paging next) (frames ++ (place.position, frame) ∷ []) t }
{}

/// The frames that a store stands for are those of its pages as they read, and as a crash leaves them, also within
/// `start` and `page`. After `page` the pages read as before with the new frame behind the others.
pub fn frames_left()
    ensures read { (store : Store) (frames : Frames) (tells : Option Account) → IsHonest tells →
        StandsForFrames store frames (states_of (account tells).files (address_of_store store)) →
        HasFrames (first_of_store store) frames (pages_of (as_read (account tells).files) (address_of_store store)) }
    ensures known { (store : Store) (frames : Frames) (files : FilesNow) (c : Files) →
        StandsForFrames store frames (states_of files (address_of_store store)) →
        LeftPages (address_of_store store) files c →
        HasFrames (first_of_store store) frames (pages_of (as_left c) (address_of_store store)) }
    ensures starting { (store : NormalStore) (s : States) (left : Pages) → IsNormal store s →
        LeavesNone store s left → HasFrames (first_of_normal store) [] left }
    ensures paging { (store : PagingStore) (frames : Frames) (payload : List ℕ) (frame : Frame) (s : States)
        (left : Pages) → SpellsFrame payload frame → StandsForFrames (Paging store) frames s →
        MayPage store payload s left → HasOldFramesOrMore (first_of store) frames frame left }
    ensures paged { (store next : PagingStore) (place : Place) (frames : Frames) (payload : List ℕ) (frame : Frame)
        (old new : Option Account) → IsHonest new → first_of next ≡ first_of store → SpellsFrame payload frame →
        Paged store payload next place (states_of (account old).files (address_of_paging store))
        (states_of (account new).files (address_of_paging store)) →
        StandsForFrames (Paging store) frames (states_of (account old).files (address_of_paging store)) →
        HasFrames (first_of store) (frames ++ (place.position, frame) ∷ [])
        (pages_of (as_read (account new).files) (address_of_paging store)) }
{}

/// Pages that are well formed stay so. As they read, that is a rule on the frames alone that the store stands for. Under
/// this rule they are well formed whatever a crash leaves of them, also within `start` and `page`, and it holds after
/// these calls.
pub fn rules_stay()
    ensures known { (known : Known) (store : Store) (frames : Frames) (tells : Option Account) → IsHonest tells →
        StandsForFrames store frames (states_of (account tells).files (address_of_store store)) →
        ArePages known (address_of_store store) (first_of_store store)
        (pages_of (as_read (account tells).files) (address_of_store store)) →
        MayAllStand known (address_of_store store) frames }
    ensures well { (known : Known) (address first : ℕ) (frames : Frames) (pages : Pages) →
        MayAllStand known address frames → HasFrames first frames pages → ArePages known address first pages }
    ensures starting { (known : Known) (address : ℕ) (store : NormalStore) (s : States) (left : Pages) →
        IsNormal store s → LeavesNone store s left → ArePages known address (first_of_normal store) left }
    ensures paging { (known : Known) (address : ℕ) (store : PagingStore) (frames : Frames) (payload : List ℕ)
        (frame : Frame) (s : States) (left : Pages) → SpellsFrame payload frame → MayStand known address frame →
        MayAllStand known address frames → StandsForFrames (Paging store) frames s → MayPage store payload s left →
        ArePages known address (first_of store) left }
    ensures started { (known : Known) (address : ℕ) → MayAllStand known address [] }
    ensures paged { (known : Known) (address : ℕ) (store : PagingStore) (frames : Frames) (frame : Frame) (size : ℕ)
        (limit : ℕ) (place : Place) → limit ≤ 1000000000 → GoesTo store size limit place →
        MayStand known address frame → MayAllStand known address frames →
        MayAllStand known address (frames ++ (place.position, frame) ∷ []) }
{}

/// Where no id stands twice in the frames of all addresses, none does once a frame with a new one stands behind those of
/// some address.
pub fn ids_stay_distinct()
    ensures { (frames : FramesOf) (address : ℕ) (position : Position) (frame : Frame) → StandOnce frames →
        IsNewId frame.message.id frames → StandOnce (with_frame address (position, frame) frames) }
{}

/// Pages of which nothing is pending surely have the payloads that they have as they read. So an address that is opened
/// stands for all frames that its pages had.
pub fn quiet_pages_surely_have()
    ensures all { (first address : ℕ) (pages : List (List (List ℕ))) (files : FilesNow) →
        QuietBefore (Some (first + length pages)) (states_of files address) →
        HasPages first pages (pages_of (as_read files) address) → SurelyHave first pages (states_of files address) }
    ensures before_last { (first last address : ℕ) (pages : List (List (List ℕ))) (files : FilesNow) →
        IsLast first (Some last) (states_of files address) → QuietBefore (Some last) (states_of files address) →
        HasPages first pages (pages_of (as_read files) address) →
        (closed : List (List (List ℕ))) × (payloads : List (List ℕ)) × (pages ≡ closed ++ payloads ∷ []) ×
        (last ≡ first + length closed) × SurelyHave first closed (states_of files address) }
    ensures opened { (store : Store) (frames : Frames) (files now : FilesNow) →
        IsLast (first_of_store store) (last_of_store store) (states_of files (address_of_store store)) →
        QuietBefore (last_of_store store) (states_of files (address_of_store store)) →
        HasFrames (first_of_store store) frames (pages_of (as_read files) (address_of_store store)) →
        Reopens store (states_of files (address_of_store store)) (states_of now (address_of_store store)) →
        StandsForFrames store frames (states_of now (address_of_store store)) }
{}
