// The two states of an address.
ghost use Rattle.std.specs.Prelude.{◌≤◌, ◌^◌};
ghost use Rattle.pg_page.specs.Writing.{page_of};

use pg_page::PageWriter;

/// An address that has no page from its first one on.
#[derive(Drop)]
pub struct NormalStore {
    pub(crate) address: u32,
    pub(crate) first: u64,
}

/// An address that pages: it has a page from its first one on, and the last one is written. Each call that writes takes
/// it by value and gives it back at Ok alone: after an Err the store has to be opened anew.
#[derive(Drop)]
pub struct PagingStore {
    pub(crate) first: u64,
    pub(crate) writer: PageWriter,
    pub ghost numbered: { page_of writer ≤ 2 ^ 62 },
}

/// The pages of an address.
#[derive(Drop)]
pub enum Store {
    Normal(NormalStore),
    Paging(PagingStore),
}
