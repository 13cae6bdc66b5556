// Nodes and their joins.
ghost use Rattle.std.specs.Prelude.{◌≡◌, Bool, List, length};
ghost use Rattle.order.specs.Assoc.{first};
ghost use Rattle.search.specs.Nodes.{Member, own, Ordered, left, Amid, Leads, Between, NextJoined};

use order::keys::Order;
use order::record::Record;

// Nodes of a kind that has an order, some of them joined.
pub trait Joining {
    type Node: Order + Copy;

    // the nodes, in their order
    ghost nodes: { Self → List Self.Node };

    ghost joins: { Self → Self.Node → Self.Node → Bool };

    // a joining is the same both ways
    ghost both: { (g : Self) (x y : Self.Node) → Member x (nodes g) → Member y (nodes g) → joins g x y ≡ joins g y x };

    // The first node, or the next one after a node.
    fn next(&self, at: Option<Self::Node>) -> Option<Self::Node>
        ensures sorted { Ordered Self.Node.Order.ranks (nodes self.now) }
        ensures next { Amid (nodes self.now) at → result ≡ first (left Self.Node.Order.ranks at (own (nodes self.now))) };

    // The place, from a place on, of the first of these earlier nodes that a node is joined with.
    fn next_joined(
        &self,
        node: Self::Node,
        earlier: &[Record<Self::Node, Self::Node>],
        from: usize,
    ) -> Option<usize>
        ensures within { Between from (length earlier.now) result }
        ensures joined { Leads Self.Node.Order.ranks earlier.now node → NextJoined (joins self.now node) earlier.now from result };
}
