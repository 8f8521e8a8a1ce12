//! Tests of published versions: facts that no contract states, and steps with values worked out by hand.
ghost use Rattle.std.specs.Prelude.{◌≡◌, All, IfOk, IfSome};

use crate::same::same;
use nms_board::Row;
use nms_fees::{SETUP_K, Setup, read_setup};
use nms_quote::{Change, Part, QState, Side, SideQuote, Sym};
use nms_units::{Lot, Price, Shares};
use nms_versions::{
    AppendFault, Desk, NoReading, OpenFault, Publisher, Receipt, Unsettled, open_tape,
};
use std::alloc::Global;
use std::fmt::Display;
use std::process::Abort;
use std::sync::Wait;
use std::test::Fail;
use std::thread::{Threads, join};

/// The setup's text: N and P on feed A, Y and Z on feed B, ABC in lots of 100, a queue of 2, a tape of 3, two desks.
fn small() -> &'static str {
    r#"tape_limit = 3
queue = 2
desks = 2
[[participant]]
name = "N"
feed = "A"
fee = 0
rate = 0
[[participant]]
name = "P"
feed = "A"
fee = 0
rate = 0
[[participant]]
name = "Y"
feed = "B"
fee = 0
rate = 0
[[participant]]
name = "Z"
feed = "B"
fee = 0
rate = 0
[[symbol]]
name = "ABC"
lot = 100
"#
}

/// An offer of ABC: the participant's place, the price in 1/10,000 dollar and the shares.
type Offer = (u8, u64, u32);

/// The change that an offer means.
fn change_of((place, price, shares): Offer) -> Option<Change> {
    let offer = SideQuote::new(Price::new(price)?, Shares::new(shares)?);
    Some(Change::Quote {
        part: Part::new(place)?,
        sym: Sym::new(0)?,
        state: QState::Automated,
        bid: None,
        offer,
    })
}

/// The two desks that were opened with a publisher.
fn two_of(publisher: &Publisher, mut desks: Vec<Desk>) -> Option<(Desk, Desk)>
    requires { All (λ desk. desk.opening ≡ publisher.now.opening) desks.items }
    ensures { IfSome result (λ ends. (ends.0.opening ≡ publisher.now.opening) × (ends.1.opening ≡ publisher.now.opening)) }
{
    let other = desks.pop()?;
    let one = desks.pop()?;
    Some((one, other))
}

/// A publisher with the two desks that were opened with it.
fn with_two<R: Abort>(rt: &R, publisher: Publisher, desks: Vec<Desk>) -> (Publisher, Desk, Desk)
    requires { All (λ desk. desk.opening ≡ publisher.opening) desks.items }
    ensures { (result.1.opening ≡ result.0.opening) × (result.2.opening ≡ result.0.opening) }
{
    let Some((one, other)) = two_of(&publisher, desks) else {
        panic!(rt; "less than two desks");
    };
    (publisher, one, other)
}

/// Opens a publisher with two desks. `None` if no place for a reader was free.
fn try_open<R: Wait + Abort>(
    alloc: Global,
    rt: &R,
    setup: &Setup,
) -> Result<Option<(Publisher, Desk, Desk)>, Fail>
    ensures { IfOk result (λ opened. IfSome opened (λ ends. (ends.1.opening ≡ ends.0.opening) × (ends.2.opening ≡ ends.0.opening))) }
{
    match open_tape(alloc, rt, setup) {
        Ok((publisher, desks)) => Ok(Some(with_two(rt, publisher, desks))),
        Err(OpenFault::NoPlace) => Ok(None),
        Err(fault) => Err(Fail::from(fault)),
    }
}

/// Opens a publisher with two desks. It tries up to 100 times, because a reader's place may be missing without a cause (V2).
fn open<R: Wait + Abort>(
    alloc: Global,
    rt: &R,
    setup: &Setup,
) -> Result<(Publisher, Desk, Desk), Fail>
    ensures { IfOk result (λ ends. (ends.1.opening ≡ ends.0.opening) × (ends.2.opening ≡ ends.0.opening)) }
{
    for _ in 0..100u32 {
        if let Some(ends) = try_open(alloc, rt, setup)? {
            return Ok(ends);
        }
    }
    Err(Fail::from("a place"))
}

/// Opens a publisher with two desks under the setup that a text gives.
fn open_on<R: Wait + Abort>(
    alloc: Global,
    rt: &R,
    text: &str,
) -> Result<(Publisher, Desk, Desk), Fail>
    ensures { IfOk result (λ ends. (ends.1.opening ≡ ends.0.opening) × (ends.2.opening ≡ ends.0.opening)) }
{
    let setup = read_setup(alloc, text)?;
    open(alloc, rt, &setup)
}

/// Appends an offer of 100 shares at 10.00 by the participant at a place, and reports the code of its refusal, or "ok".
fn append(rt: &impl Abort, publisher: &mut Publisher, place: u8) -> &'static str
    ensures { publisher.new.opening ≡ publisher.old.opening }
{
    append_offer(rt, publisher, (place, 100_000, 100))
}

/// Appends an offer, and reports the code of its refusal, or "ok".
fn append_offer(rt: &impl Abort, publisher: &mut Publisher, offer: Offer) -> &'static str
    ensures { publisher.new.opening ≡ publisher.old.opening }
{
    match change_of(offer) {
        Some(change) => append_change(rt, publisher, change),
        None => "no change",
    }
}

/// Appends a new round lot of ABC, and reports the code of its refusal, or "ok".
fn append_lot(rt: &impl Abort, publisher: &mut Publisher, shares: u16) -> &'static str
    ensures { publisher.new.opening ≡ publisher.old.opening }
{
    let (Some(sym), Some(lot)) = (Sym::new(0), Lot::new(shares)) else {
        return "no change";
    };
    append_change(rt, publisher, Change::Lot { sym, lot })
}

/// Appends a change, and reports the code of its refusal, or "ok".
fn append_change(rt: &impl Abort, publisher: &mut Publisher, change: Change) -> &'static str
    ensures { publisher.new.opening ≡ publisher.old.opening }
{
    assert!(rt; publisher.holds(&change));
    match publisher.append(change) {
        Ok(()) => "ok",
        Err(AppendFault::NoMemory) => "V3",
        Err(AppendFault::TapeFull) => "V4",
    }
}

/// The version of a look at ABC and how many offers it shows.
fn looked(desk: &mut Desk) -> Result<(u64, usize), NoReading>
    ensures { desk.new.opening ≡ desk.old.opening }
{
    let Some(sym) = Sym::new(0) else {
        return Err(NoReading);
    };
    let view = desk.look(sym)?;
    Ok((view.version(), view.count(Side::Offer)))
}

/// Informs a desk of the published version, and returns that version.
fn tell(publisher: &mut Publisher, desk: &mut Desk) -> u64
    requires { desk.old.opening ≡ publisher.old.opening }
    ensures publisher { publisher.new.opening ≡ publisher.old.opening }
    ensures desk { desk.new.opening ≡ desk.old.opening }
{
    let receipt = publisher.receipt();
    let version = receipt.version();
    desk.learn(receipt);
    version
}

/// The place of the participant that a letter names.
fn place_of(word: &str) -> u8 {
    match word {
        "N" => 0,
        "P" => 1,
        "Y" => 2,
        _ => 3,
    }
}

/// Makes the step that a word names, and returns its answer. A participant's letter appends its offer. Other words publish,
/// inform desk 0, measure the tape, look from a desk, or append a new round lot.
fn go<R: Wait + Abort>(
    rt: &R,
    alloc: Global,
    publisher: &mut Publisher,
    one: &mut Desk,
    other: &mut Desk,
    word: &str,
) -> String
    requires { one.old.opening ≡ publisher.old.opening }
    ensures publisher { publisher.new.opening ≡ publisher.old.opening }
    ensures one { one.new.opening ≡ one.old.opening }
{
    match word {
        "publish" => {
            publisher.publish(rt);
            printed(rt, alloc, "published")
        }
        "tell" => printed(rt, alloc, tell(publisher, one)),
        "tape" => printed(rt, alloc, publisher.tape().len()),
        "desk 0" => seen(rt, alloc, looked(one)),
        "desk 1" => seen(rt, alloc, looked(other)),
        "lot 101" => printed(rt, alloc, append_lot(rt, publisher, 101)),
        "lot 40" => printed(rt, alloc, append_lot(rt, publisher, 40)),
        _ => printed(rt, alloc, append(rt, publisher, place_of(word))),
    }
}

/// A word, a number or a fault as a text.
fn printed<R: Abort, V: Display + Drop>(rt: &R, alloc: Global, value: V) -> String {
    format!(in alloc; "{value}").expect(rt, "memory")
}

/// A look as a text: its version and how many offers it shows.
fn seen<R: Abort>(rt: &R, alloc: Global, look: Result<(u64, usize), NoReading>) -> String {
    match look {
        Ok((version, offers)) => format!(in alloc; "{version} {offers}").expect(rt, "memory"),
        Err(fault) => printed(rt, alloc, fault),
    }
}

/// Opens a publisher with two desks, makes each step and compares its answer with the expected one.
fn run<R: Wait + Abort>(
    rt: &R,
    alloc: Global,
    text: &str,
    steps: &[(&str, &str)],
) -> Result<(), Fail> {
    let (publisher, one, other) = open_on(alloc, rt, text)?;
    run_on(rt, alloc, publisher, one, other, steps);
    Ok(())
}

/// Makes each step and compares its answer. Then it closes the publisher, after which a desk sees nothing.
fn run_on<R: Wait + Abort>(
    rt: &R,
    alloc: Global,
    mut publisher: Publisher,
    mut one: Desk,
    mut other: Desk,
    steps: &[(&str, &str)],
)
    requires { one.opening ≡ publisher.opening }
{
    make_all(rt, alloc, &mut publisher, &mut one, &mut other, steps);
    publisher.close(rt);
    see_nothing(rt, alloc, &mut one);
}

/// Checks that a desk sees nothing after the publisher was closed.
fn see_nothing<R: Abort>(rt: &R, alloc: Global, desk: &mut Desk) {
    let answer = seen(rt, alloc, looked(desk));
    same(rt, answer.as_str(), "V5: no reading");
}

/// Makes each step and compares its answer with the expected one.
fn make_all<R: Wait + Abort>(
    rt: &R,
    alloc: Global,
    publisher: &mut Publisher,
    one: &mut Desk,
    other: &mut Desk,
    steps: &[(&str, &str)],
)
    requires { one.old.opening ≡ publisher.old.opening }
{
    for (word, answer) in steps {
        let told = go(rt, alloc, publisher, one, other, word);
        same(rt, (*word, told.as_str()), (*word, *answer));
    }
}

#[test]
fn desks_see_what_is_published_told_or_not(rt: HostRuntime) -> Result<(), Fail> {
    let steps = [
        ("tell", "0"),
        ("N", "ok"),
        ("P", "ok"),
        ("Y", "ok"),
        ("desk 0", "0 0"),
        ("publish", "published"),
        ("tell", "3"),
        ("desk 0", "3 3"),
        ("desk 1", "3 3"),
        ("Z", "ok"),
        ("N", "ok"),
        ("desk 0", "3 3"),
        ("tape", "5"),
        ("publish", "published"),
        ("desk 1", "5 4"),
    ];
    run(&rt, rt.alloc(), SETUP_K, &steps)
}

/// Offers of 100 shares are hidden once a round lot of 101 is published, and are shown again under one of 40.
#[test]
fn desks_see_a_new_round_lot_once_it_is_published(rt: HostRuntime) -> Result<(), Fail> {
    let steps = [
        ("N", "ok"),
        ("P", "ok"),
        ("publish", "published"),
        ("lot 101", "ok"),
        ("desk 0", "2 2"),
        ("publish", "published"),
        ("desk 0", "3 0"),
        ("Y", "ok"),
        ("lot 40", "ok"),
        ("desk 1", "3 0"),
        ("publish", "published"),
        ("tell", "5"),
        ("desk 1", "5 3"),
        ("tape", "5"),
    ];
    run(&rt, rt.alloc(), SETUP_K, &steps)
}

#[test]
fn a_fourth_change_of_a_tape_of_three_is_refused(rt: HostRuntime) -> Result<(), Fail> {
    let steps = [
        ("N", "ok"),
        ("P", "ok"),
        ("Y", "ok"),
        ("Z", "V4"),
        ("tape", "3"),
        ("publish", "published"),
        ("Z", "V4"),
        ("desk 0", "3 3"),
        ("tell", "3"),
    ];
    run(&rt, rt.alloc(), small(), &steps)
}

#[test]
fn a_desk_settles_on_no_receipt_older_than_what_it_knows(rt: HostRuntime) -> Result<(), Fail> {
    let (mut publisher, mut desk, _other) = open_on(rt.alloc(), &rt, SETUP_K)?;
    let early = publisher.receipt();
    publish_often(&rt, &mut publisher, 3);
    let late = publisher.receipt();
    same(&rt, looked(&mut desk), Ok((3, 1)));
    settle_twice(&rt, publisher, desk, early, late);
    Ok(())
}

#[test]
fn a_desk_that_was_told_of_a_version_settles_on_none_before_it(
    rt: HostRuntime,
) -> Result<(), Fail> {
    let (mut publisher, mut desk, _other) = open_on(rt.alloc(), &rt, SETUP_K)?;
    publish_often(&rt, &mut publisher, 2);
    let early = publisher.receipt();
    same(&rt, looked(&mut desk), Ok((2, 1)));
    publish_often(&rt, &mut publisher, 1);
    let (newer, late) = (publisher.receipt(), publisher.receipt());
    desk.learn(newer);
    settle_twice(&rt, publisher, desk, early, late);
    Ok(())
}

/// Settles a desk on an early receipt, which is refused. Then it closes the publisher, and settles the desk on a receipt of
/// version 3.
fn settle_twice<R: Wait + Abort>(
    rt: &R,
    publisher: Publisher,
    desk: Desk,
    early: Receipt,
    late: Receipt,
)
    requires { (early.opening ≡ desk.opening) × (late.opening ≡ desk.opening) }
{
    let refused = desk.settle(early);
    publisher.close(rt);
    let Err(Unsettled::Newer { desk, version }) = refused else {
        panic!(rt; "a desk settled on an older receipt");
    };
    same(rt, version, 3);
    let settled = desk.settle(late).ok().map(|settled| settled.version);
    same(rt, settled, Some(3));
}

/// The three offers of the worked steps: 300 by N and 500 by P at 10.00, and 200 by Y at 10.01.
fn worked() -> [Offer; 3] {
    [(0, 100_000, 300), (1, 100_000, 500), (2, 100_100, 200)]
}

/// Appends the three offers of N, P and Y that the worked steps use.
fn append_worked<R: Abort>(rt: &R, publisher: &mut Publisher)
    ensures { publisher.new.opening ≡ publisher.old.opening }
{
    for offer in worked() {
        same(rt, append_offer(rt, publisher, offer), "ok");
    }
}

/// Whether rows show exactly the given offers, in order.
fn are_offers(rows: &[Row], offers: &[Offer]) -> bool {
    for (row, (place, price, shares)) in rows.iter().zip(offers) {
        if (row.part.get(), row.price.get(), row.size) != (*place, *price, *shares) {
            return false;
        }
    }
    rows.len() == offers.len()
}

/// Whether a look at ABC shows version 3 with the three offers of N, P and Y.
fn sees_worked(desk: &mut Desk) -> bool
    ensures { desk.new.opening ≡ desk.old.opening }
{
    let Some(sym) = Sym::new(0) else {
        return false;
    };
    match desk.look(sym) {
        Ok(view) => view.version() == 3 && are_offers(view.rows(Side::Offer), &worked()),
        Err(_) => false,
    }
}

/// Desk 0 is informed of version 3, desk 1 of nothing. Both see all three offers. Desk 0 still does after two more changes that
/// are not published. It does not settle on a receipt of version 0, but on one of version 3.
#[test]
fn a_desk_settles_on_what_it_saw_and_was_told_of(rt: HostRuntime) -> Result<(), Fail> {
    let (mut publisher, mut one, mut other) = open_on(rt.alloc(), &rt, SETUP_K)?;
    let early = publisher.receipt();
    append_worked(&rt, &mut publisher);
    publisher.publish(&rt);
    let (late, last) = (publisher.receipt(), publisher.receipt());
    same(
        &rt,
        (early.version(), late.version(), last.version()),
        (0, 3, 3),
    );
    one.learn(late);
    same(
        &rt,
        (sees_worked(&mut one), sees_worked(&mut other)),
        (true, true),
    );
    let more = (
        append(&rt, &mut publisher, 3),
        append(&rt, &mut publisher, 0),
    );
    same(&rt, (more, sees_worked(&mut one)), (("ok", "ok"), true));
    settle_twice(&rt, publisher, one, early, last);
    Ok(())
}

/// Appends an offer to a tape of n changes. If memory is short, the tape and the view stay as they were. Then it appends the
/// offer once more.
fn append_again<R: Abort>(rt: &R, publisher: &mut Publisher, desk: &mut Desk, count: u64) {
    let mut told = append(rt, publisher, 0);
    if told == "V3" {
        let left = (publisher.tape().len() as u64, looked(desk));
        same(rt, left, (count, Ok((0, 0))));
        told = append(rt, publisher, 0);
    }
    same(rt, (count, told), (count, "ok"));
}

/// A run in which each allocation is refused in turn (`rt try --test --fail-alloc N`). A refused opening ends the test with code
/// V1. A refused change leaves the tape and the view, and is appended once there is memory.
#[test]
fn out_of_memory_leaves_the_tape_as_it_was(rt: HostRuntime) -> Result<(), Fail> {
    let (mut publisher, mut desk, _other) = open_on(rt.alloc(), &rt, SETUP_K)?;
    append_70(&rt, &mut publisher, &mut desk);
    publisher.publish(&rt);
    same(&rt, looked(&mut desk), Ok((70, 1)));
    same(&rt, publisher.close(&rt).len(), 70);
    Ok(())
}

/// Appends 70 offers, and repeats each that was refused for lack of memory.
fn append_70<R: Abort>(rt: &R, publisher: &mut Publisher, desk: &mut Desk) {
    for count in 0..70u64 {
        append_again(rt, publisher, desk, count);
    }
}

/// Looks at ABC n times, and reports whether each look showed something and the versions never fell.
fn never_falls(desk: &mut Desk, looks: u32) -> bool {
    let mut last = 0;
    for _ in 0..looks {
        match looked(desk) {
            Ok((version, _)) if version >= last => last = version,
            _ => return false,
        }
    }
    true
}

/// Appends and publishes one offer, n times.
fn publish_often<R: Wait + Abort>(rt: &R, publisher: &mut Publisher, times: u32)
    ensures { publisher.new.opening ≡ publisher.old.opening }
{
    for _ in 0..times {
        append(rt, publisher, 0);
        publisher.publish(rt);
    }
}

/// Publishes 1,000 times while a desk makes 2,000 looks. Returns whether the versions that the desk saw never fell.
fn run_two<R: Threads + Wait + Abort + Sync>(
    rt: &R,
    publisher: &mut Publisher,
    desk: &mut Desk,
) -> bool {
    let (looked, ()) = join(
        rt,
        || never_falls(desk, 2000),
        || publish_often(rt, publisher, 1000),
    );
    looked
}

/// Publishes 1,000 times while two desks look, each in its own thread. Returns whether the versions that each saw never fell.
fn run_three<R: Threads + Wait + Abort + Sync>(
    rt: &R,
    publisher: &mut Publisher,
    one: &mut Desk,
    other: &mut Desk,
) -> (bool, bool) {
    join(
        rt,
        || never_falls(one, 2000),
        || run_two(rt, publisher, other),
    )
}

#[test]
fn a_thousand_publications_beside_two_desks_never_fall(rt: HostRuntime) -> Result<(), Fail> {
    let (mut publisher, mut one, mut other) = open_on(rt.alloc(), &rt, SETUP_K)?;
    let looks = run_three(&rt, &mut publisher, &mut one, &mut other);
    same(&rt, looks, (true, true));
    // The tape is full, so this change is refused.
    same(&rt, append(&rt, &mut publisher, 0), "V4");
    same(&rt, looked(&mut one), Ok((1000, 1)));
    same(&rt, publisher.close(&rt).len(), 1000);
    Ok(())
}

#[test]
fn faults_print_their_codes(rt: HostRuntime) {
    for (fault, text) in [
        (OpenFault::NoMemory, "V1: out of memory"),
        (OpenFault::NoPlace, "V2: no place for a reader"),
    ] {
        same(&rt, printed(&rt, rt.alloc(), fault).as_str(), text);
    }
    for (fault, text) in [
        (AppendFault::NoMemory, "V3: out of memory"),
        (AppendFault::TapeFull, "V4: the tape is full"),
    ] {
        same(&rt, printed(&rt, rt.alloc(), fault).as_str(), text);
    }
}
