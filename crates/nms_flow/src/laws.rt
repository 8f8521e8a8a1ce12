//! Laws about runs of the machine (specs/Laws). Each function does nothing: its contract is the law.
ghost use Rattle.std.specs.Prelude.{◌≡◌, ℕ, ◌≤◌, ◌++◌, All, AllPairs, List, map};
ghost use Rattle.nms_quote.specs.Merge.{IsMerge, changes_of, feeds};
ghost use Rattle.nms_quote.specs.Roster.{Listing};
ghost use Rattle.nms_quote.specs.declared.feed.Feed.{Feed};
ghost use Rattle.nms_flow.specs.Laws.{IsOnOwnFeed, ShowsPublished, fed_by, versions_of};
ghost use Rattle.nms_flow.specs.Run.{Event, IsRun, Room, changes_in, queue_at, sent_by, standing_after, tape_at};

/// Each view that a run shows is of the version that was published last before it.
pub fn looks_show_the_published_version()
    ensures { (room : Room) (events : List Event) → IsRun room events → ShowsPublished room events }
{}

/// Over the steps of a run, the versions that a desk sees or learns of never fall.
pub fn desks_versions_never_fall()
    ensures { (room : Room) (events : List Event) (desk : ℕ) → IsRun room events
        → AllPairs (λ earlier later. earlier ≤ later) (versions_of desk events) }
{}

/// The tape followed by the queue is what was sent, which is a merge of what the feeds sent. If each change was sent on its own
/// feed, a tape by itself shows what a feed sent: the changes that belong to the feed.
pub fn tape_and_queue_are_a_merge()
    ensures merge { (events : List Event) → IsMerge (map (λ feed. fed_by feed events) feeds) (sent_by events) }
    ensures whole { (events : List Event)
        → tape_at (standing_after events) ++ queue_at (standing_after events) ≡ changes_in (sent_by events) }
    ensures belonging { (roster : Listing) (events : List Event) (feed : Feed)
        → All (IsOnOwnFeed roster) (sent_by events)
        → changes_of roster feed (changes_in (sent_by events)) ≡ fed_by feed events }
{}
