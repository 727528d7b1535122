// Each call on a graph whose answer is seen at a glance, and the search for components with its check beside the
// plain search.
ghost use Rattle.std.specs.Prelude.{IsTrue};
ghost use Rattle.go_graph.specs.Graph.{IsGraph};

use crate::certificate::is_confirmed;
use crate::components::find_components;
use crate::cycles::by_search;
use crate::{Numbers, cyclic_edges, cyclic_vertices, is_graph, order, reached};
use go_base::NoMemory;
use std::alloc::Global;
use std::test::Fail;

// The rows with these numbers.
fn rows_of(alloc: Global, rows: &[&[usize]]) -> Result<Vec<Numbers>, NoMemory> {
    let mut all = Vec::new(alloc);
    for row in rows {
        let mut numbers = Numbers::new(alloc);
        for number in *row {
            numbers.push(*number)?;
        }
        all.push(numbers)?;
    }
    Ok(all)
}

// Whether rows are a graph.
fn are_graph(rows: &[Numbers]) -> bool
    ensures { IsTrue result → IsGraph rows.now }
{
    is_graph(rows)
}

// The marks of the edges that lie on a cycle, if the components are confirmed and the plain search gives the same.
fn edge_marks(alloc: Global, graph: &[Numbers]) -> Result<Option<Vec<Vec<bool>>>, NoMemory> {
    if !are_graph(graph) {
        return Ok(None);
    }
    let found = find_components(alloc, graph)?;
    if !is_confirmed(graph, &found.vertices, &found.leaders) {
        return Ok(None);
    }
    let marks = cyclic_edges(alloc, graph)?;
    if marks != by_search(alloc, graph)? {
        return Ok(None);
    }
    Ok(Some(marks))
}

// Whether rows of marks are these.
fn are_same(rows: &[Vec<bool>], wanted: &[&[bool]]) -> bool {
    rows.len() == wanted.len()
        && rows
            .iter()
            .zip(wanted)
            .all(|(row, marks)| row.as_slice() == *marks)
}

#[test]
fn edges_on_cycles(rt: HostRuntime) -> Result<(), Fail> {
    let table: [(&str, &[&[usize]], &[&[bool]]); 5] = [
        ("no vertex", &[], &[]),
        (
            "a vertex that leads to itself, and one that leads there",
            &[&[0], &[0, 0]],
            &[&[true], &[false, false]],
        ),
        (
            "two cycles and an edge between them",
            &[&[1], &[0, 2], &[3], &[2]],
            &[&[true], &[true, false], &[true], &[true]],
        ),
        (
            "a diamond",
            &[&[1, 2], &[3], &[3], &[]],
            &[&[false, false], &[false], &[false], &[]],
        ),
        (
            "ways back over a vertex that was reached before",
            &[&[1, 3], &[2], &[0], &[2, 4], &[1]],
            &[&[true, true], &[true], &[true], &[true, true], &[true]],
        ),
    ];
    for (name, rows, wanted) in table {
        let graph = rows_of(rt.alloc(), rows)?;
        let marks = edge_marks(rt.alloc(), &graph)?.expect(&rt, "marks");
        assert!(rt; are_same(&marks, wanted), "{name}");
    }
    Ok(())
}

// The graph of three vertices in which an edge leads from a to b where the bit 3a+b of a number is set.
fn numbered(alloc: Global, number: usize) -> Result<Vec<Numbers>, NoMemory> {
    let mut graph = Vec::new(alloc);
    for from in 0..3 {
        let mut row = Numbers::new(alloc);
        for to in 0..3 {
            if (number >> (3 * from + to)) & 1 == 1 {
                row.push(to)?;
            }
        }
        graph.push(row)?;
    }
    Ok(graph)
}

#[test]
fn all_graphs_of_three_vertices(rt: HostRuntime) -> Result<(), Fail> {
    for number in 0..512 {
        let graph = numbered(rt.alloc(), number)?;
        assert!(rt; edge_marks(rt.alloc(), &graph)?.is_some(), "{number}");
    }
    Ok(())
}

// An edge leads from each of 1,000 vertices to the next, and from the last to the middle one.
#[test]
fn a_long_way_into_a_cycle(rt: HostRuntime) -> Result<(), Fail> {
    let mut graph = Vec::new(rt.alloc());
    for vertex in 0..1000usize {
        let mut row = Numbers::new(rt.alloc());
        row.push(if vertex == 999 { 500 } else { vertex + 1 })?;
        graph.push(row)?;
    }
    let marks = edge_marks(rt.alloc(), &graph)?.expect(&rt, "marks");
    for (vertex, row) in marks.iter().enumerate() {
        assert_eq!(rt; row.as_slice(), [vertex >= 500].as_slice(), "{vertex}");
    }
    Ok(())
}

// Two vertices on a cycle, one that leads there and to the last, and one that leads to the last alone.
const ROWS: [&[usize]; 5] = [&[1], &[0], &[1, 4], &[4], &[]];

#[test]
fn vertices_on_cycles(rt: HostRuntime) -> Result<(), Fail> {
    let rows = rows_of(rt.alloc(), &ROWS)?;
    let graph = rows.as_slice();
    assert!(rt; are_graph(graph));
    let marks = cyclic_vertices(rt.alloc(), graph)?;
    assert_eq!(rt;
        marks.as_slice(),
        [true, true, false, false, false].as_slice()
    );
    Ok(())
}

#[test]
fn vertices_reached(rt: HostRuntime) -> Result<(), Fail> {
    let rows = rows_of(rt.alloc(), &ROWS)?;
    let graph = rows.as_slice();
    let starts: &[bool] = &[false, true, false, true, false];
    assert!(rt; are_graph(graph));
    assert!(rt; graph.len() == starts.len());
    let marks = reached(rt.alloc(), graph, starts)?;
    assert_eq!(rt;
        marks.as_slice(),
        [true, true, false, true, true].as_slice()
    );
    Ok(())
}

#[test]
fn vertices_in_order(rt: HostRuntime) -> Result<(), Fail> {
    let rows = rows_of(rt.alloc(), &[&[3, 3], &[], &[5], &[1], &[], &[5]])?;
    let graph = rows.as_slice();
    assert!(rt; are_graph(graph));
    let order = order(rt.alloc(), graph)?;
    assert_eq!(rt; order.as_slice(), [1, 3, 0, 4].as_slice());
    Ok(())
}
