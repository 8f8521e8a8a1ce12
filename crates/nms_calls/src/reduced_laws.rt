//! The laws about a reduced view: `specs/ReducedLaws`. The functions do nothing: their contracts are the laws.
ghost use Rattle.nms_calls.specs.ReducedExamples.{ExampleHolds};
ghost use Rattle.nms_calls.specs.ReducedLaws.{LawfulPlansTakeNoMore, NumbersSayOneView, PlansAreOnTheReducedView, ReducedNumbersAreReadSo, ReducedNumbersSayTheView};

/// Numbers say at most one view, on rosters of any size.
pub fn numbers_say_one_view()
    ensures { NumbersSayOneView }
{}

/// If numbers said a view on a roster, the numbers that `reduce_view` writes from them say the reduced view on it. So
/// `plan_view`, `confirm_view` and `through_view` read the reduced view from them.
pub fn reduced_numbers_say_the_view()
    ensures said { ReducedNumbersSayTheView }
    ensures read { ReducedNumbersAreReadSo }
{}

/// For the numbers of a reduced view, `plan_view` writes a plan on the reduced view: the best lawful one.
pub fn a_plan_is_on_the_reduced_view()
    ensures { PlansAreOnTheReducedView }
{}

/// Suppose that the order trades with the side that is reduced. Then a lawful plan on the reduced view sends no participant
/// more than its number of shares. Each plan that `plan_view` writes is lawful, and so is each that `confirm_view` confirms.
pub fn a_lawful_plan_takes_no_more()
    ensures { LawfulPlansTakeNoMore }
{}

/// The definitions give what the worked example says.
pub fn worked_example()
    ensures { ExampleHolds }
{}
