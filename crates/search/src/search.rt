// The search: nodes are listed in a table, each its own class, and the classes of joined nodes become one.
ghost use Rattle.std.specs.Prelude.{◌≡◌, ◌<◌, ◌≤◌, ◌++◌, length, take, drop, slice_index_or};
ghost use Rattle.std.specs.Result.{result_ok};
ghost use Rattle.search.specs.Nodes.{own, Ordered, keys};
ghost use Rattle.search.specs.Classes.{counted, joined_on, Searches};

use crate::classes::Classes;
use crate::joining::Joining;
use crate::labels::{count_own, unite};
use order::keys::Order;
use order::record::Record;
use table::front::front;
use table::rows::Table;

// There are fewer records than nodes.
#[derive(Clone, Copy, Debug, PartialEq, Eq)]
pub struct TooFewRecords;

// How many nodes there are, if there are no more than `room`.
fn count<J: Joining>(graph: &J, room: usize) -> Result<usize, TooFewRecords>
    ensures sorted { Ordered J.Node.Order.ranks (J.Joining.nodes graph.now) }
    ensures value { result_ok result ≡ counted room (length (J.Joining.nodes graph.now)) }
{
    let mut n = 0;
    let mut at = None;
    // An iterator would have to carry that it stands at a node, for which `next` answers; that would be no shorter.
    while let Some(node) = graph.next(at) {
        if n == room {
            return Err(TooFewRecords);
        }
        n += 1;
        at = Some(node);
    }
    Ok(n)
}

// Lists the nodes in the first records, each labelled with itself.
fn list<J: Joining>(graph: &J, rows: &mut [Record<J::Node, J::Node>])
    requires { length (J.Joining.nodes graph.now) ≤ length rows.old }
    ensures { rows.new ≡ own (J.Joining.nodes graph.now) ++ drop (length (J.Joining.nodes graph.now)) rows.old }
{
    let mut table = Table::open(rows);
    let mut at = None;
    // As in `count`, by the graph's own `next`.
    while let Some(node) = graph.next(at) {
        // There is a record for each node, so that none is refused.
        let _ = table.put(node, node);
        at = Some(node);
    }
}

// Makes the class of the node at a place one with those of the earlier nodes that it is joined with.
fn join<J: Joining>(graph: &J, rows: &mut [Record<J::Node, J::Node>], at: usize)
    requires within { at < length rows.old }
    requires sorted { Ordered J.Node.Order.ranks (keys rows.old) }
    ensures { (d : _) → rows.new ≡ joined_on J.Node.Order.ranks (J.Joining.joins graph.now) (take at (keys rows.old)) rows.old (slice_index_or rows.old at d).key }
{
    let node = rows[at].key;
    let mut from = 0;
    // The labels change on the way, so that no iterator can hold the records.
    while let Some(place) = graph.next_joined(node, front(rows, at), from) {
        unite(rows, at, place);
        from = place + 1;
    }
}

// Gathers the nodes into classes. The first records then hold the nodes in order, each with the least node of its class.
// Nothing is written where there are fewer records than nodes.
pub fn search<J: Joining>(
    graph: &J,
    rows: &mut [Record<J::Node, J::Node>],
) -> Result<Classes, TooFewRecords>
    ensures { Searches J.Node.Order.ranks (J.Joining.joins graph.now) (J.Joining.nodes graph.now) rows.old rows.new (result_ok result) }
{
    let n = count(graph, rows.len())?;
    list(graph, rows);
    let labels = &mut rows[0..n];
    // Each turn changes labels of earlier records too, so it takes all of them and a place.
    for at in 0..n {
        join(graph, labels, at);
    }
    Ok(Classes {
        nodes: n,
        classes: count_own(labels),
    })
}
