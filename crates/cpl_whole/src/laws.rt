// The law of the tables.
ghost use Rattle.cpl_plan.specs.Plans.{IsPlan, PlanParts};
ghost use Rattle.cpl_whole.specs.Laws.{HasMosaics, LosesNothing};

/// Nothing is lost in the run of a lawful plan. In each row of its exchanges table what was in flight before the coupling step and
/// what was given in it is what was taken in it and what is in flight after it. In each row of its stocks table the total is what the
/// start held, with the heat that the sun brought, less what left to space; water and salt stay as they are. No work is done.
pub fn rows_law()
    ensures { (plan : PlanParts) → IsPlan plan → HasMosaics plan.grid → LosesNothing plan }
{}
