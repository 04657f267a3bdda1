// The page that is written, and its file.
ghost use Rattle.std.specs.Prelude.{◌≡◌, ◌<◌, ◌*◌};
ghost use Rattle.pg_disk.specs.declared.file_id.Kind.TheVariants.{Page};
ghost use Rattle.pg_gate.specs.Gated.{counted_length, file_of};
ghost use Rattle.pg_page.specs.Pages.{page_file as file_of_page};

use pg_disk::{FileId, Kind};
use pg_gate::Rest;

/// A page at rest, to which frames are added. Each call that writes takes it by value and gives it back at Ok alone:
/// after an Err the page has to be opened anew.
#[derive(Drop)]
pub struct PageWriter {
    pub(crate) rest: Rest,
    // How many frames it has.
    pub(crate) frames: u32,
    pub ghost of_page: { (file_of rest).kind ≡ Page },
    pub ghost short: { 9 * frames < counted_length rest },
}

/// What a page was when it was last written.
#[derive(Clone, Copy, PartialEq, Eq)]
pub struct ClosedPage {
    pub page: u64,
    pub frames: u32,
    /// The counted length of its file, in bytes.
    pub length: u64,
}

// The file of a page of an address.
pub(crate) fn page_file(address: u32, page: u64) -> FileId
    ensures { result ≡ file_of_page address page }
{
    FileId {
        kind: Kind::Page,
        owner: address,
        number: page,
    }
}
