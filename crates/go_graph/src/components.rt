// The strongly connected components of a graph, by Tarjan's algorithm with an explicit stack. Nothing
// is proved of what it finds, but that it ends: `is_confirmed` checks it.
ghost use Rattle.std.specs.Prelude.{◌≡◌};
ghost use Rattle.go_graph.specs.Graph.{edge_at};

use crate::numbers::{Numbers, row_at};
use go_base::NoMemory;
use std::alloc::Global;

// How far the search has come with a vertex.
#[derive(Clone, Copy, PartialEq, Eq)]
pub(crate) enum Progress {
    New,
    Open,
    Done,
}

// What the search tells of a vertex.
//
// `index` is its place in the order in which the vertices are reached, and `component` the number of
// its component. It was reached by the edge with the index `parent_edge` of `parent`. `low` is the
// lowest index of an open vertex to which the search found a way from it, or its own index where none
// is lower. That way begins with its edge `back_edge`.
#[derive(Clone, Copy)]
pub(crate) struct Vertex {
    pub(crate) progress: Progress,
    pub(crate) index: usize,
    pub(crate) component: usize,
    pub(crate) parent: usize,
    pub(crate) parent_edge: usize,
    pub(crate) low: usize,
    pub(crate) back_edge: usize,
}

// A vertex on the path of the search, and which of its edges is to be followed next.
#[derive(Clone, Copy)]
struct Visit {
    vertex: usize,
    edge: usize,
}

// The search.
//
// It tells something of each vertex, and for each component its leader, the vertex of it that was
// reached first. A component is numbered after those that it leads to. `path` leads to the vertex that
// the search stands at, `open` has the vertices whose component is not known yet, in the order of
// their indices, and `reached` is the number of vertices that were reached.
#[derive(Drop)]
pub(crate) struct Components {
    pub(crate) vertices: Vec<Vertex>,
    pub(crate) leaders: Vec<usize>,
    path: Vec<Visit>,
    open: Vec<usize>,
    reached: usize,
}

// The components of a graph, in steps that grow with its vertices and edges.
pub(crate) fn find_components(alloc: Global, graph: &[Numbers]) -> Result<Components, NoMemory> {
    let mut found = Components::unsearched(alloc, graph.len())?;
    let mut steps = most_steps(graph);
    for start in 0..graph.len() {
        found.reach(start, start, 0)?;
        while steps > 0 && found.go_on(graph)? {
            steps -= 1;
        }
    }
    Ok(found)
}

// How many steps the search can take: it follows each edge once, and leaves each vertex once.
fn most_steps(graph: &[Numbers]) -> usize {
    let mut steps: usize = 0;
    for row in graph {
        steps = steps.saturating_add(row.as_slice().len()).saturating_add(1);
    }
    steps
}

impl Components {
    // No vertex is reached yet.
    fn unsearched(alloc: Global, count: usize) -> Result<Self, NoMemory> {
        let unreached = Vertex {
            progress: Progress::New,
            index: 0,
            component: 0,
            parent: 0,
            parent_edge: 0,
            low: 0,
            back_edge: 0,
        };
        Ok(Components {
            vertices: vec![in alloc; unreached; count]?,
            leaders: Vec::new(alloc),
            path: Vec::new(alloc),
            open: Vec::new(alloc),
            reached: 0,
        })
    }

    // Follows the next edge of the vertex that the path ends at, or leaves the vertex after its last
    // one. Says whether there was a vertex on the path.
    fn go_on(&mut self, graph: &[Numbers]) -> Result<bool, NoMemory> {
        let Some(visit) = self.path.pop() else {
            return Ok(false);
        };
        match edge_end(graph, visit.vertex, visit.edge) {
            Some(to) => {
                self.path.push(Visit {
                    vertex: visit.vertex,
                    edge: visit.edge.saturating_add(1),
                })?;
                self.follow(visit, to)?;
            }
            None => self.leave(visit.vertex)?,
        }
        Ok(true)
    }

    // Follows an edge to its end.
    fn follow(&mut self, visit: Visit, to: usize) -> Result<(), NoMemory> {
        let Some(end) = self.vertices.get(to) else {
            return Ok(());
        };
        match end.progress {
            Progress::New => self.reach(to, visit.vertex, visit.edge)?,
            Progress::Open => {
                let index = end.index;
                self.lower(visit.vertex, index, visit.edge);
            }
            Progress::Done => {}
        }
        Ok(())
    }

    // Reaches a vertex by an edge, if it is new.
    fn reach(&mut self, vertex: usize, parent: usize, parent_edge: usize) -> Result<(), NoMemory> {
        let Some(found) = self.vertices.get_mut(vertex) else {
            return Ok(());
        };
        if found.progress != Progress::New {
            return Ok(());
        }
        *found = Vertex {
            progress: Progress::Open,
            index: self.reached,
            component: 0,
            parent,
            parent_edge,
            low: self.reached,
            back_edge: 0,
        };
        self.reached = self.reached.saturating_add(1);
        self.open.push(vertex)?;
        self.path.push(Visit { vertex, edge: 0 })?;
        Ok(())
    }

    // An edge of a vertex begins a way to an index.
    fn lower(&mut self, vertex: usize, index: usize, edge: usize) {
        if let Some(from) = self.vertices.get_mut(vertex) {
            if index < from.low {
                from.low = index;
                from.back_edge = edge;
            }
        }
    }

    // Leaves a vertex. It leads its component if no lower index is reached from it.
    fn leave(&mut self, vertex: usize) -> Result<(), NoMemory> {
        let Some(left) = self.vertices.get(vertex) else {
            return Ok(());
        };
        let left = *left;
        if left.low == left.index {
            self.close(vertex)
        } else {
            self.lower(left.parent, left.low, left.parent_edge);
            Ok(())
        }
    }

    // Closes the component that a vertex leads: of the open vertices, itself and those after it.
    fn close(&mut self, leader: usize) -> Result<(), NoMemory> {
        let component = self.leaders.len();
        self.leaders.push(leader)?;
        while let Some(vertex) = self.open.pop() {
            if let Some(closed) = self.vertices.get_mut(vertex) {
                closed.component = component;
                closed.progress = Progress::Done;
            }
            if vertex == leader {
                return Ok(());
            }
        }
        Ok(())
    }
}

// The end of an edge of a vertex, by its index among those of the vertex.
pub(crate) fn edge_end(graph: &[Numbers], vertex: usize, edge: usize) -> Option<usize>
    ensures { result ≡ edge_at graph.now vertex edge }
{
    row_at(graph, vertex).get(edge).copied()
}
