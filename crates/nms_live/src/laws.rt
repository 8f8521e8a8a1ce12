//! The laws about a live run. Each function does nothing: its contract is the law.
ghost use Rattle.std.specs.Prelude.{map};
ghost use Rattle.nms_live.specs.Headline.{AreBestOfTheirVersions};
ghost use Rattle.nms_live.specs.Living.{IsLive};
ghost use Rattle.nms_live.specs.RunOf.{IsSomeRun};

use crate::live::Live;
use nms_board::quotations_stand_by_participant;
use nms_fees::Setup;
use nms_flow::tape_and_queue_are_a_merge;
use nms_nbbo::{one_best_row, some_row_is_best};
use nms_quote::DeskOrder;
use nms_rules::a_lawful_plan_never_trades_through;

/// Each plan of a live run names one published version, no older than any that its desk saw before. Its best quotes are the
/// rule's ranking of the published changes. The plan keeps the limit. It sweeps in full every protected quotation that is
/// better than a price at which it trades, except those of named participants. No lawful plan on that version fills more
/// shares, or as many for less, fees included. This is 17 CFR 242.600 and 242.611(a), (b)(1), (5) and (6); what is best is this
/// product's own rule.
pub fn each_answer_is_the_best_of_its_version(
    setup: &Setup,
    feeds: &[Vec<u8>],
    orders: &[DeskOrder],
    live: &Live,
)
    requires { IsLive setup.now (map (λ text. text.items) feeds.now) orders.now live.now }
    ensures { AreBestOfTheirVersions setup.now live.now }
{
    one_best_row();
    some_row_is_best();
    quotations_stand_by_participant();
    a_lawful_plan_never_trades_through();
}

/// A live run has the result of some run of the sequential machine, in one thread. That run sends what the feeds say, takes the
/// same tape and publishes the same lengths in order. It shows each desk in order the versions on which its answers were made,
/// the closing ones last. This product's own rule.
pub fn a_live_run_is_a_run_of_the_machine(
    setup: &Setup,
    feeds: &[Vec<u8>],
    orders: &[DeskOrder],
    live: &Live,
)
    requires { IsLive setup.now (map (λ text. text.items) feeds.now) orders.now live.now }
    ensures { IsSomeRun setup.now (map (λ text. text.items) feeds.now) live.now }
{
    let _room = setup.queue();
    tape_and_queue_are_a_merge();
}
