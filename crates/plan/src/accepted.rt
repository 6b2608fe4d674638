// A plan that was accepted.
use crate::area::Node;
use std::marker::Model;

// A tree of areas that keeps the rules of a plan as long as it exists: its nodes by number, and the lowest area of each
// slot. Callers see it as its areas.
#[derive(Drop)]
pub struct Plan {
    pub(crate) nodes: Vec<Node>,
    pub(crate) homes: Vec<u16>,
}

impl Model for Plan {
    ghost use Rattle.std.specs.Prelude.{List};
    ghost use Rattle.plan.specs.declared.area.Area.{Area};
    ghost use Rattle.plan.specs.Accepted.{Accepted};
    ghost use Rattle.plan.specs.Nodes.{areas_in};

    ghost Value = { List Area };

    ghost view = { λ p. areas_in p.nodes.items };

    ghost invariant = { λ p. Accepted p.nodes.items p.homes.items };
}
