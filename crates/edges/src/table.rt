// The table as a theorem.
ghost use Rattle.edges.specs.Edges.{EdgeValues};

pub fn edge_values()
    ensures { EdgeValues }
{}
