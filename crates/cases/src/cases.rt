// Cases: the entries of the pile.
ghost use Rattle.std.specs.Prelude.{◌≤◌};

use heap::Name;
use pieces::{Edge, Node};

// How many names there are, nil among them.
pub const NAMES: usize = 9;

// How many nodes a shape has at most: nil, one for each other name, one for each row of a piece that weighs.
pub const NODES: usize = 17;

// How far the opening of a piece is done. Indexes into its names and atoms, not slices of them: the lent list of cases outlives each opening.
#[derive(Clone, Copy)]
pub enum Stage {
    // the names from this index on are still to be placed
    Placing(u8),
    // the atoms from this index on are still to be added
    Adding(u8),
    // a segment is laid from node `from` up to node `to`; the atoms from `next` on come behind it
    Linking { from: Node, to: Node, next: u8 },
    // rows are done
    Running,
}

// A shape at a row: the node of each name, the edge of each node. Arrays and no `ArrayVec`, since a case is copied in and out of lent slots; nodes as indexes, since nothing is allocated.
// That the shape is sound is said where it is needed, and not kept here: names and edges are set one by one, and it does not hold in between. Nor that its row is at most 41: it is the search that knows that no row behind comes up.
// That a name is below 9 is said at each call too: names are the bytes of heap's atoms and sheet's rows, and a type of its own would be made and undone around each.
#[derive(Clone, Copy)]
pub struct Case {
    pub(crate) names: [Node; NAMES],
    pub(crate) edges: [Edge; NODES],
    pub(crate) nodes: u8,
    pub(crate) row: u8,
    pub(crate) stage: Stage,
    ghost narrow: { nodes ≤ 17 },
}

impl Case {
    ghost use Rattle.std.specs.Prelude.{◌≡◌, ◌<◌, replicate};
    ghost use Rattle.pieces.specs.declared.shapes.Edge.TheVariants.{Dead};
    ghost use Rattle.pieces.specs.ModelOpening.{bare};
    ghost use Rattle.pieces.specs.ModelShapes.{set_name, set_edge, add_node};
    ghost use Rattle.cases.specs.Items.{shape_of, row_of, stage_of, is_running};

    // A case for a list to be lent; what it holds does not matter.
    pub fn blank() -> Case
        ensures names { result.names ≡ replicate 9 0 }
        ensures edges { result.edges ≡ replicate 17 Dead }
        ensures nodes { result.nodes ≡ 1 }
        ensures row { result.row ≡ 1 }
        ensures stage { result.stage ≡ Stage.Running }
    {
        Case {
            names: [0; NAMES],
            edges: [Edge::Dead; NODES],
            nodes: 1,
            row: 1,
            stage: Stage::Running,
        }
    }

    // The case that a piece opens with: nil alone, all names still to be placed.
    pub fn opening(row: u8) -> Case
        ensures shape { shape_of result ≡ bare }
        ensures row { result.row ≡ row }
        ensures stage { result.stage ≡ Stage.Placing 0 }
    {
        let mut first = Case::blank();
        first.row = row;
        first.stage = Stage::Placing(0);
        first
    }

    // The row that comes next.
    pub fn row(&self) -> u8
        ensures { result ≡ row_of self.now }
    {
        self.row
    }

    // Whether the opening is done, and rows are.
    pub fn is_running(&self) -> bool
        ensures { result ≡ is_running (stage_of self.now) }
    {
        matches!(self.stage, Stage::Running)
    }

    // The case with a name at another node. This method and those like it say too what they leave as it was: a caller's proof has it from nowhere else.
    pub(crate) fn with_name(mut self, x: Name, node: Node) -> Case
        requires { x < 9 }
        ensures shape { shape_of result ≡ set_name (shape_of self) x node }
        ensures row { result.row ≡ self.row }
        ensures stage { result.stage ≡ self.stage }
    {
        self.names[usize::from(x)] = node;
        self
    }

    // The case with another edge at a node.
    pub(crate) fn with_edge(mut self, i: Node, edge: Edge) -> Case
        requires { i < 17 }
        ensures shape { shape_of result ≡ set_edge (shape_of self) i edge }
        ensures row { result.row ≡ self.row }
        ensures stage { result.stage ≡ self.stage }
    {
        self.edges[usize::from(i)] = edge;
        self
    }

    // The case with one node more.
    pub(crate) fn with_node(mut self, edge: Edge) -> Case
        requires { self.nodes < 17 }
        ensures shape { shape_of result ≡ add_node (shape_of self) edge }
        ensures row { result.row ≡ self.row }
        ensures stage { result.stage ≡ self.stage }
    {
        self.edges[usize::from(self.nodes)] = edge;
        self.nodes += 1;
        self
    }

    // The case at another stage.
    pub(crate) fn at_stage(mut self, stage: Stage) -> Case
        ensures shape { shape_of result ≡ shape_of self }
        ensures row { result.row ≡ self.row }
        ensures stage { result.stage ≡ stage }
    {
        self.stage = stage;
        self
    }
}
