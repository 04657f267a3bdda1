// The names of a folded state, by hash.
ghost use Rattle.std.specs.Prelude.{◌≡◌, ◌≢◌, [], All, AllPairs, IfOk};
ghost use Rattle.pg_fold.specs.Rows.{AreAscending};
ghost use Rattle.pg_fold.specs.Sound.{AreAddresses};
ghost use Rattle.pg_parse.specs.FilterTexts.{IsReadable, ReadsAs};
ghost use Rattle.pg_engine.specs.Kept.{AreNamed, AreRoutesOf};

use pg_fold::{AddressRow, QueueRow};
use pg_parse::{Tree, filter_of};
use pg_routes::Routes;
use std::alloc::{AllocError, Global};

// The names of the addresses and of the queues.
pub(crate) fn named_routes(
    alloc: Global,
    addresses: &[AddressRow],
    queues: &[QueueRow],
) -> Result<Routes, AllocError>
    requires addresses { AreAddresses addresses.now }
    requires ascending { AreAscending queues.now }
    requires names { AllPairs (λ row other. row.name ≢ other.name) queues.now }
    requires filters { All (λ row. IsReadable row.filter) queues.now }
    ensures { IfOk result (AreRoutesOf addresses.now queues.now) }
{
    let mut routes = Routes::new(alloc);
    for row in addresses {
        routes.add_address(alloc, row.id, row.name.copy()?)?;
    }
    name_queues(alloc, routes, queues)
}

// The tree of the filter that is kept as this text.
fn read_tree(alloc: Global, text: &str) -> Result<Option<Tree>, AllocError>
    requires { IsReadable text.now }
    ensures { IfOk result (ReadsAs text.now) }
{
    match filter_of(alloc, text) {
        Ok(tree) => Ok(tree),
        Err(_) => Err(AllocError),
    }
}

// Adds the names of the queues, with their filters.
fn name_queues(alloc: Global, mut routes: Routes, queues: &[QueueRow]) -> Result<Routes, AllocError>
    requires none { routes.queues ≡ [] }
    requires ascending { AreAscending queues.now }
    requires names { AllPairs (λ row other. row.name ≢ other.name) queues.now }
    requires filters { All (λ row. IsReadable row.filter) queues.now }
    ensures { IfOk result (AreNamed routes.addresses queues.now) }
{
    for row in queues {
        let tree = read_tree(alloc, row.filter.as_str())?;
        routes.add_queue(alloc, row.id, row.address, row.name.copy()?, tree)?;
    }
    Ok(routes)
}
