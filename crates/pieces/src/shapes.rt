// Shapes: symbolic heaps in which everything is decided.

// A node of a shape: node 0 is nil, different nodes have different values. A number and no enum, since it is an index of edges.
pub type Node = u8;

// What is known of the cell at a node.
#[derive(Clone, Copy, PartialEq, Eq, Debug)]
pub enum Edge {
    // nil, or not live
    Dead,
    // one cell, whose link is the node
    Cell(Node),
    // one cell or more up to the node, which is none of them; no inner cell is a node's
    Segment(Node),
}
