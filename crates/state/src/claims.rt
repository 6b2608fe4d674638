//! What is proved of the rules by themselves. Each function carries a statement in its contract and does nothing.
ghost use Rattle.state.specs.Drains.{DrainedInAnyOrder};
ghost use Rattle.state.specs.Lawful.{LayoutsAreLawful};
ghost use Rattle.state.specs.Scenarios.{ScenariosComeOut, FurtherScenariosComeOut};

/// The worked scenarios on the sample plan come out as they should.
pub fn scenarios_come_out()
    ensures worked { ScenariosComeOut }
    ensures further { FurtherScenariosComeOut }
{}

/// Marks taken one by one, in whatever order, until none waits in an area, leave the drained memory.
pub fn drained_in_any_order()
    ensures { DrainedInAnyOrder }
{}

/// The tables that the rules read of an accepted plan keep the plan's laws: homes, areas above, nesting, levels of pointers.
pub fn layouts_are_lawful()
    ensures { LayoutsAreLawful }
{}
