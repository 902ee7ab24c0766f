// The edge values of the figures, as a theorem about the definitions.
ghost use Rattle.figures.specs.Edges.{FigureEdges};

pub fn figure_edges_hold() -> u8
    ensures { FigureEdges }
{
    0
}
