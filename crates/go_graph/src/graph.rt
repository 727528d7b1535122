// Whether rows of numbers are a graph.
ghost use Rattle.std.specs.Prelude.{◌≡◌, ◌<◌, ◌↔◌, All, true};
ghost use Rattle.go_graph.specs.Graph.{IsGraph};

use crate::numbers::Numbers;

/// Whether each number in the rows is the place of one of them.
pub fn is_graph(rows: &[Numbers]) -> bool
    ensures { (result ≡ true) ↔ IsGraph rows.now }
{
    for row in rows {
        if !are_below(row.as_slice(), rows.len()) {
            return false;
        }
    }
    true
}

// Whether all numbers are below a bound.
fn are_below(row: &[usize], bound: usize) -> bool
    ensures { (result ≡ true) ↔ All (λ b. b < bound) row.now }
{
    row.iter().all(|to| *to < bound)
}
