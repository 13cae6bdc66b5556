// What a table store is made of, and what holds of it at all times.
pub mod methods;

ghost use Rattle.std.specs.Prelude.{◌≡◌, ◌≤◌, true};
ghost use Rattle.store.specs.Contents.{fits};
ghost use Rattle.table.specs.Held.{held, room};
ghost use Rattle.table_store.specs.Entries.{entries};
ghost use Rattle.table_store.specs.Limits.{most_records, vertex_range};

use simplex::simplex::Simplex;
use table::sorted::SortedTable;

// A table of simplexes and their masks, of whose records only the first `limit` are ever used.
#[derive(Drop)]
pub struct TableStore<'a> {
    table: SortedTable<'a, Simplex, u8>,
    limit: usize,
    ghost used: { table.table.len ≤ limit },
    ghost lent: { limit ≤ room table.table },
    ghost few: { limit ≤ most_records },
    ghost fit: { fits vertex_range (entries (held table.table)) ≡ true },
}
