// The edges of a day.
ghost use Rattle.session.specs.Edges.{Edges};

// Each edge of a day is as it has to be.
#[tactic(auto, using(crate::proofs::OnEdge::edges))]
pub fn edges_hold() -> u8
    ensures { Edges }
{
    0
}
