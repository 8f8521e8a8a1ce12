//! The laws about plans: `specs/Laws`. The functions do nothing: their contracts are the laws.
ghost use Rattle.nms_rules.specs.Laws.{AcceptedPlansAreBest, AcceptedPlansAreOptimal, LawfulPlansNeverTradeThrough, LawfulPlansPassOverTheNamed, NamingNobodyChangesNothing, NamingOneLeavesTheOthers};

/// A plan without a breach keeps its limit. At none of its prices does it trade through a protected quotation on the side that
/// its order trades with (17 CFR 242.611(a), (b)(5) and (6)). Quotations of participants that the order names are left out
/// (242.611(b)(1)). In a crossed market the other side is ignored, because the exception for crossed markets, 242.611(b)(4), is
/// not part of this product.
pub fn a_lawful_plan_never_trades_through()
    ensures { LawfulPlansNeverTradeThrough }
{}

/// A plan without a breach sends nothing to a participant that its order names (17 CFR 242.611(b)(1)).
pub fn a_lawful_plan_passes_over_the_named()
    ensures { LawfulPlansPassOverTheNamed }
{}

/// An order that names no participant is treated as if there were no self-help. It may trade with quotations of its side within
/// its limit: protected, or manual if it allows them. It has to sweep the protected ones. This product's own rule.
pub fn naming_nobody_changes_nothing()
    ensures { NamingNobodyChangesNothing }
{}

/// Naming one more participant makes its quotations neither usable nor binding, and leaves all other quotations as they
/// were (17 CFR 242.611(b)(1)).
pub fn naming_one_leaves_the_others()
    ensures { NamingOneLeavesTheOthers }
{}

/// A plan that is accepted with its certificate is optimal. No lawful way to spread shares over the quotations fills more, and
/// none fills as many for less, fees included. This product's own rule.
pub fn an_accepted_plan_is_optimal()
    ensures { AcceptedPlansAreOptimal }
{}

/// A plan that is accepted with its certificate is the best. No lawful plan for the order on the view fills more shares, and
/// none fills as many for less, fees included. This product's own rule.
pub fn an_accepted_plan_is_best()
    ensures { AcceptedPlansAreBest }
{}
