// What a store knows, where others change files. These laws have no code.
ghost use Rattle.std.specs.Prelude.{◌≡◌, ◌≢◌, ℕ, List};
ghost use Rattle.std.specs.FinMap.{get};
ghost use Rattle.pg_disk.specs.declared.file_id.FileId.{FileId};
ghost use Rattle.pg_disk.specs.declared.file_id.Kind.TheVariants.{Page as OfPage};
ghost use Rattle.pg_disk.specs.Files.{Files};
ghost use Rattle.pg_disk.specs.Image.{IsLeftAt};
ghost use Rattle.pg_disk.specs.Views.{as_left};
ghost use Rattle.pg_page.specs.Pages.{Entry, HasEntries, IsPageOf, page_file, pages_of};
ghost use Rattle.pg_store.specs.declared.store.Store.{Store};
ghost use Rattle.pg_store.specs.Pages.{FilesNow, LeftPages, SamePages, states_of};
ghost use Rattle.pg_store.specs.Stores.{IsReady, Stands, address_of_store, first_of_store};

/// What a store knows of the files, it knows of all files in which each page of its address is as it was. That is so
/// where one file is changed that is no page, and where pages of another address are.
pub fn kept_elsewhere()
    ensures ready { (store : Store) (files now : FilesNow) → SamePages (address_of_store store) files now →
        IsReady store (states_of files (address_of_store store)) →
        IsReady store (states_of now (address_of_store store)) }
    ensures stands { (store : Store) (entries : List Entry) (files now : FilesNow) →
        SamePages (address_of_store store) files now → Stands store entries (states_of files (address_of_store store)) →
        Stands store entries (states_of now (address_of_store store)) }
    ensures other_file { (address : ℕ) (file : FileId) (files now : FilesNow) → file.kind ≢ OfPage →
        ((f : FileId) → f ≢ file → get now f ≡ get files f) → SamePages address files now }
    ensures other_pages { (address other : ℕ) (files now : FilesNow) → other ≢ address →
        ((f : FileId) → (IsPageOf other f → ⊥) → get now f ≡ get files f) → SamePages address files now }
{}

/// Where what is left of each page of a store's address is what a crash may leave of it, it has the payloads that the
/// store stands for. That is so within the changes of one file that is no page, and of pages of another address.
pub fn left_as_known()
    ensures known { (store : Store) (entries : List Entry) (files : FilesNow) (c : Files) →
        Stands store entries (states_of files (address_of_store store)) → LeftPages (address_of_store store) files c →
        HasEntries (first_of_store store) entries (pages_of (as_left c) (address_of_store store)) }
    ensures other_file { (address : ℕ) (file : FileId) (files : FilesNow) (c : Files) → file.kind ≢ OfPage →
        ((f : FileId) → f ≢ file → IsLeftAt (get files f) (get c f)) → LeftPages address files c }
    ensures other_pages { (address other : ℕ) (files : FilesNow) (c : Files) → other ≢ address →
        ((f : FileId) → (IsPageOf other f → ⊥) → IsLeftAt (get files f) (get c f)) → LeftPages address files c }
{}
