// The frames of all addresses, as one of them gets one more and as a crash leaves them. These laws have no code.
ghost use Rattle.std.specs.Prelude.{◌≡◌, ◌≤◌, ◌+◌, ℕ, List, [], length, Option, None};
ghost use Rattle.pg_disk.specs.Account.{Account, account, IsHonest};
ghost use Rattle.pg_disk.specs.Files.{Files};
ghost use Rattle.pg_disk.specs.Views.{as_left, as_read};
ghost use Rattle.pg_page.specs.declared.frame.Frame.{Frame};
ghost use Rattle.pg_page.specs.declared.place.Place.{Place};
ghost use Rattle.pg_page.specs.Frames.{SpellsFrame};
ghost use Rattle.pg_page.specs.Pages.{HasFrames, pages_of};
ghost use Rattle.pg_store.specs.declared.store.Store.{Store};
ghost use Rattle.pg_store.specs.Every.{Appends, AreReady, HaveFrames, HaveOldFramesOrMore, IsStoreWith, MayPageAt};
ghost use Rattle.pg_store.specs.Every.{PagedAt, StandForAll, StayElsewhere};
ghost use Rattle.pg_store.specs.Framed.{FramesOf, with_frame};
ghost use Rattle.pg_store.specs.Pages.{ChangesPages, FilesNow, HasNoneFrom, IsLast, LeavesPages, LeftPages};
ghost use Rattle.pg_store.specs.Pages.{QuietBefore, SamePages, states_of};
ghost use Rattle.pg_store.specs.Stores.{IsReady, Reopens};

/// What all stores know of the files: they are ready for the calls, and what they stand for stays where no page of an
/// address with a store changes. With no address nothing is known; an address more that has no page has no frame.
pub fn all_stand()
    ensures none { (frames : FramesOf) (files : FilesNow) → AreReady [] files × StandForAll [] frames files }
    ensures ready { (stores : List Store) (frames : FramesOf) (files : FilesNow) → StandForAll stores frames files →
        AreReady stores files }
    ensures ready_elsewhere { (stores : List Store) (files now : FilesNow) →
        ((address : ℕ) → address ≤ length stores → SamePages address files now) → AreReady stores files → AreReady stores now }
    ensures elsewhere { (stores : List Store) (frames : FramesOf) (files now : FilesNow) →
        ((address : ℕ) → address ≤ length stores → SamePages address files now) → StandForAll stores frames files →
        StandForAll stores frames now }
    ensures ready_added { (stores next : List Store) (first : ℕ) (files : FilesNow) →
        Appends stores next (IsStoreWith (length stores + 1) first None) →
        HasNoneFrom first (states_of files (length stores + 1)) → AreReady stores files → AreReady next files }
    ensures added { (stores next : List Store) (first : ℕ) (frames : FramesOf) (files : FilesNow) →
        Appends stores next (IsStoreWith (length stores + 1) first None) →
        HasNoneFrom first (states_of files (length stores + 1)) → frames (length stores + 1) ≡ [] →
        StandForAll stores frames files → StandForAll next frames files }
{}

/// Addresses are opened one by one: the stores of those before go on as they were, where the pages of each are as they
/// were, and the new one stands for the frames that its pages had as they read.
pub fn all_open()
    ensures ready { (stores next : List Store) (first : ℕ) (last : Option ℕ) (files now : FilesNow) →
        Appends stores next (IsStoreWith (length stores + 1) first last) →
        Appends stores next (λ store. IsReady store (states_of now (length stores + 1)) ×
        Reopens store (states_of files (length stores + 1)) (states_of now (length stores + 1))) →
        AreReady stores now → AreReady next now }
    ensures stand { (stores next : List Store) (first : ℕ) (last : Option ℕ) (frames : FramesOf)
        (files now : FilesNow) → Appends stores next (IsStoreWith (length stores + 1) first last) →
        Appends stores next (λ store. IsReady store (states_of now (length stores + 1)) ×
        Reopens store (states_of files (length stores + 1)) (states_of now (length stores + 1))) →
        IsLast first last (states_of files (length stores + 1)) →
        QuietBefore last (states_of files (length stores + 1)) →
        HasFrames first (frames (length stores + 1)) (pages_of (as_read files) (length stores + 1)) →
        StandForAll stores frames now → StandForAll next frames now }
{}

/// After `page` with a payload that spells a frame, this one stands behind those of its address, at the place that was
/// answered.
pub fn all_paged()
    ensures { (address : ℕ) (stores next : List Store) (payload : List ℕ) (frame : Frame) (place : Place)
        (frames : FramesOf) (old new : Account) → SpellsFrame payload frame → StayElsewhere address stores next →
        AreReady next new.files → ChangesPages address (PagedAt address stores payload next place) old new →
        StandForAll stores frames old.files →
        StandForAll next (with_frame address (place.position, frame) frames) new.files }
{}

/// The frames that all stores stand for are those of their pages as they read, and as a crash leaves them. Within `page`
/// all addresses have the old ones, or one address has the new one behind them.
pub fn all_left()
    ensures read { (stores : List Store) (frames : FramesOf) (tells : Option Account) → IsHonest tells →
        StandForAll stores frames (account tells).files →
        HaveFrames stores frames (as_read (account tells).files) }
    ensures known { (stores : List Store) (frames : FramesOf) (files : FilesNow) (c : Files) →
        StandForAll stores frames files → ((address : ℕ) → address ≤ length stores → LeftPages address files c) →
        HaveFrames stores frames (as_left c) }
    ensures paging { (address : ℕ) (stores : List Store) (payload : List ℕ) (frame : Frame) (frames : FramesOf)
        (tells : Option Account) (c : Files) (b : List ℕ) → SpellsFrame payload frame →
        StandForAll stores frames (account tells).files →
        LeavesPages address (MayPageAt address stores payload) tells c b →
        HaveOldFramesOrMore address stores frames frame (as_left c) }
{}
