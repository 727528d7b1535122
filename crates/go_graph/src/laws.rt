//! Laws of the order by repeated choice.
ghost use Rattle.std.specs.Prelude.{◌≡◌, ◌<◌, ℕ, List, length, Contains};
ghost use Rattle.go_graph.specs.Graph.{Graph};
ghost use Rattle.go_graph.specs.Order.{IsOrder, Respects};

/// In an order each vertex stands once, behind all that its edges lead to.
pub fn behind_edges()
    ensures { (g : Graph) (order : List ℕ) → IsOrder g order → Respects g order }
{}

/// Where some list has all vertices, each once and behind all that its edges lead to, the order has all vertices.
pub fn no_vertex_is_left()
    ensures { (g : Graph) (list order : List ℕ) → Respects g list
        → ((v : ℕ) → v < length g → Contains list v) → IsOrder g order → (v : ℕ) → v < length g → Contains order v }
{}

/// A graph has one order.
pub fn one_order()
    ensures { (g : Graph) (a b : List ℕ) → IsOrder g a → IsOrder g b → a ≡ b }
{}
