// The closing test: whether a list of atoms holds of everything that a case describes.
ghost use Rattle.std.specs.Prelude.{◌≡◌, ℕ, ◌<◌, ◌≤◌};
ghost use Rattle.cases.specs.Covers.{edges_of, Inside};
ghost use Rattle.cases.specs.Items.{shape_of};

use crate::cases::{Case, NODES};
use heap::Atom;
use pieces::{Edge, Node};

// A case, and its edges that are left while the atoms of a list take theirs: a copy of the case's array, and as long.
#[derive(Drop)]
struct Covering<'a> {
    case: &'a Case,
    edges: [Edge; NODES],
    ghost named: { (n : ℕ) → (shape_of case.now).name n < case.now.nodes },
    ghost inside: { Inside case.now.nodes (edges_of edges) },
}

impl Covering<'_> {
    ghost use Rattle.std.specs.Prelude.{◌≡◌, ℕ, ◌<◌, ◌&&◌, List, ◌∷◌};
    ghost use Rattle.heap.specs.declared.atoms.Atom.{Atom as AtomT};
    ghost use Rattle.pieces.specs.declared.shapes.Edge.TheVariants.{Dead};
    ghost use Rattle.pieces.specs.ModelBounds.{AtomSmall};
    ghost use Rattle.pieces.specs.ModelCover.{all_dead, covered, walk as walk_over, if_cell};
    ghost use Rattle.pieces.specs.Pieces.{put};
    ghost use Rattle.cases.specs.Covers.{Walked};

    // Walks from a node along the edges up to another, and takes each edge on the way: whether it was reached.
    fn walk(&mut self, from: Node, to: Node) -> bool
        requires { from < self.old.case.now.nodes }
        ensures walked { Walked result (edges_of self.new.edges) (walk_over self.old.case.now.nodes (edges_of self.old.edges) from to) }
        ensures case { self.new.case ≡ self.old.case }
    {
        let mut i = from;
        for _step in 0..self.case.nodes {
            if i == to {
                return true;
            }
            let at = usize::from(i);
            match self.edges[at] {
                Edge::Dead => return false,
                Edge::Cell(next) | Edge::Segment(next) => {
                    self.edges[at] = Edge::Dead;
                    i = next;
                }
            }
        }
        i == to
    }

    // Takes the edge of a node: whether it is one cell that is linked to the other.
    fn take_cell(&mut self, i: Node, to: Node) -> bool
        requires { i < 17 }
        ensures cell { result ≡ if_cell (edges_of self.old.edges i) to }
        ensures taken { edges_of self.new.edges ≡ put (edges_of self.old.edges) i Dead }
        ensures case { self.new.case ≡ self.old.case }
    {
        let at = usize::from(i);
        let edge = self.edges[at];
        self.edges[at] = Edge::Dead;
        edge == Edge::Cell(to)
    }

    // Whether an atom holds of some of the edges that are left, which are then taken.
    fn takes(&mut self, atom: &Atom) -> bool
        requires { AtomSmall atom.now }
        ensures taken { (l : List AtomT) → covered self.old.case.now.nodes (shape_of self.old.case.now).name (atom.now ∷ l) (edges_of self.old.edges) ≡ (result && covered self.old.case.now.nodes (shape_of self.old.case.now).name l (edges_of self.new.edges)) }
        ensures case { self.new.case ≡ self.old.case }
    {
        let case = self.case;
        match atom {
            Atom::Eq { left, right } => case.are_equal(*left, *right),
            Atom::Neq { left, right } => !case.are_equal(*left, *right),
            Atom::Next { cell, link } => self.take_cell(case.node(*cell), case.node(*link)),
            Atom::Lseg { from, to } => self.walk(case.node(*from), case.node(*to)),
        }
    }

    // Whether no edge is left.
    fn is_done(&self) -> bool
        ensures { result ≡ all_dead self.now.case.now.nodes (edges_of self.now.edges) }
    {
        self.edges[..usize::from(self.case.nodes)]
            .iter()
            .all(|edge| *edge == Edge::Dead)
    }
}

impl Case {
    ghost use Rattle.std.specs.Prelude.{◌≡◌};
    ghost use Rattle.pieces.specs.ModelCover.{covered};
    ghost use Rattle.pieces.specs.ModelShapes.{SoundShape};
    ghost use Rattle.cases.specs.Items.{SmallAtoms};

    // Whether the list holds of every state that the case describes: each atom in turn takes its edges, and none is left over.
    pub fn covers(&self, atoms: &[Atom]) -> bool
        requires sound { SoundShape (shape_of self.now) }
        requires small { SmallAtoms atoms.now }
        ensures { result ≡ covered self.now.nodes (shape_of self.now).name atoms.now (shape_of self.now).edge }
    {
        let mut covering = Covering {
            case: self,
            edges: self.edges,
        };
        // a `for`: a closure that changes what it captures would tell the proof nothing of what `all` leaves
        for atom in atoms {
            if !covering.takes(atom) {
                return false;
            }
        }
        covering.is_done()
    }
}
