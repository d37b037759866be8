// A radius and how it is read: which distances are within it, and which bounds are beyond it.
ghost use Rattle.std.specs.Prelude.{◌≡◌};
ghost use Rattle.written.specs.Boxes.{passes, beyond as beyond_radius};
ghost use Rattle.metric.specs.Edges.{edge_of, edge_by};

// The two readings: at most the radius, or below it.
#[derive(Clone, Copy, PartialEq, Eq)]
pub enum Edge {
    UpTo,
    Under,
}

impl Edge {
    // By a flag, for callers in C.
    pub fn by(under: bool) -> Self
        ensures { edge_of result ≡ edge_by under }
    {
        if under { Edge::Under } else { Edge::UpTo }
    }
}

#[derive(Clone, Copy)]
pub struct Within {
    pub radius: f64,
    pub edge: Edge,
}

impl Within {
    // A distance passes. NaN passes nothing.
    #[tactic(auto, unfolding(written::specs::Boxes::passes))]
    pub fn accepts(self, distance: f64) -> bool
        ensures { result ≡ passes (edge_of self.edge) self.radius distance }
    {
        match self.edge {
            Edge::Under => distance < self.radius,
            Edge::UpTo => distance <= self.radius,
        }
    }

    // A bound rules a node pair out. NaN rules nothing out.
    #[tactic(auto, unfolding(written::specs::Boxes::beyond))]
    pub fn beyond(self, bound: f64) -> bool
        ensures { result ≡ beyond_radius (edge_of self.edge) self.radius bound }
    {
        match self.edge {
            Edge::Under => bound >= self.radius,
            Edge::UpTo => bound > self.radius,
        }
    }
}
