// The table as a theorem.
ghost use Rattle.edges_items.specs.Edges.{ItemEdges};

pub fn item_edges()
    ensures { ItemEdges }
{}
