//! Reading a mapping of quotes from its TOML document: `specs/Readings`.
ghost use Rattle.std.specs.Prelude.{◌≡◌, ◌≢◌, ◌<◌, ◌≤◌, IfErr, IfOk, Some, None, is_some, true};
ghost use Rattle.toml.specs.Parse.{parse_document};
ghost use Rattle.toml.specs.View.{table_view};
ghost use Rattle.nms_units.specs.declared.TheConstants.{MOST_LOT};
ghost use Rattle.nms_import.specs.Findings.{IsFirst, faults_of};
ghost use Rattle.nms_import.specs.Readings.{AreMeaningsOf, IsMappingOf, is_of_sides, kind_meant, kind_said};
ghost use Rattle.nms_import.specs.Drafts.{doc_of, plain};
ghost use Rattle.nms_import.specs.Refusals.{is_of_text};

use crate::draft::Draft;
use crate::faults::check;
use crate::keys::Kind;
use crate::map_fault::MapFault;
use crate::mapping::{Mapping, Order, Source, Sources};
use crate::meanings::{Half, Meaning, Meanings, Said, SideWords};
use crate::reading::{add_words, common_in, file_in, number_in, source_at, source_of};
use nms_quote::{QState, Side};
use nms_units::MOST_LOT;
use std::alloc::{AllocError, Global};
use toml::Table;

/// The TOML document of a text.
pub fn document_of(alloc: Global, text: &str) -> Result<Table, MapFault<'static>>
    ensures document { IfOk result (λ document. parse_document text.now ≡ Some (table_view document)) }
    ensures refused { IfErr result (λ fault. fault ≢ MapFault.NoMemory → parse_document text.now ≡ None) }
    ensures kind { IfErr result (λ fault. fault ≢ MapFault.NoMemory → is_of_text fault ≡ true) }
{
    match toml::table_from_str(alloc, text) {
        Ok(document) => Ok(document),
        Err(error) if error.is_memory() => Err(MapFault::NoMemory),
        Err(error) => {
            let start = match error.span() {
                Some(span) => span.start,
                None => 0,
            };
            Err(MapFault::NotToml {
                line: line_at(text, start),
            })
        }
    }
}

/// The line of a text that has the byte at a place, counted from 1.
fn line_at(text: &str, place: usize) -> u64 {
    let bytes = text.as_bytes();
    let mut line = 1u64;
    for at in 0..place.min(bytes.len()) {
        if bytes[at] == b'\n' {
            line += 1;
        }
    }
    line
}

/// The mapping of quotes that a document gives, or the first of its faults.
pub fn mapping_of(alloc: Global, document: &Table) -> Result<Mapping, MapFault<'_>>
    ensures mapping { IfOk result (IsMappingOf (plain (kind_said (table_view document.now)) (table_view document.now))) }
    ensures refused { IfErr result (IsFirst (faults_of (plain (kind_said (table_view document.now)) (table_view document.now)))) }
{
    mapping_by(
        alloc,
        Draft::new(kind_said(document), document),
        "participant",
    )
}

/// What a mapping of quotes is for: `[file] kind = "sides"` says that each row has one side. If the kind is misspelt, a column of
/// sizes says so.
pub fn kind_said(document: &Table) -> Kind
    ensures { result ≡ kind_said (table_view document.now) }
{
    let draft = Draft::new(Kind::Quotes, document);
    match draft.value("file", "kind") {
        Some(value) => match value.as_str() {
            Some("sides") => Kind::Sides,
            Some("quotes" | "trades") => Kind::Quotes,
            Some(_) | None => kind_meant(draft),
        },
        None => Kind::Quotes,
    }
}

/// What a mapping is for if its kind is misspelt. If it has a column of sizes, each row has one side.
fn kind_meant(draft: Draft<'_>) -> Kind
    ensures { result ≡ kind_meant (doc_of draft.entry) }
{
    if draft.value("column", "size").is_some() {
        Kind::Sides
    } else {
        Kind::Quotes
    }
}

/// The mapping that a document gives, or the first of its faults. The participant's column is that of the given key.
pub fn mapping_by<'a>(
    alloc: Global,
    draft: Draft<'a>,
    participant: &'static str,
) -> Result<Mapping, MapFault<'a>>
    ensures mapping { IfOk result (IsMappingOf (doc_of draft.entry)) }
    ensures refused { IfErr result (IsFirst (faults_of (doc_of draft.entry))) }
{
    check(alloc, draft)?;
    let meanings = meanings_in(alloc, draft)?;
    let sources = sources_in(
        alloc,
        draft,
        participant,
        bid_keys(draft),
        offer_keys(draft),
    )?;
    Ok(Mapping {
        file: file_in(draft),
        order: order_in(draft),
        meanings,
        sources,
        offers: offers_in(alloc, draft, participant)?,
    })
}

/// What the mapping says of the columns of an offer, if each row has one side.
fn offers_in(
    alloc: Global,
    draft: Draft<'_>,
    participant: &'static str,
) -> Result<Option<Sources>, AllocError>
    ensures { IfOk result (λ offers. is_some offers ≡ is_of_sides (doc_of draft.entry).kind) }
{
    if draft.kind != Kind::Sides {
        return Ok(None);
    }
    match sources_in(alloc, draft, participant, BOTH_SIDES, ONE_SIDE) {
        Ok(offers) => Ok(Some(offers)),
        Err(error) => Err(error),
    }
}

/// The order of the rows. Because national bests are found by their times, the order of theirs is never free.
fn order_in(draft: Draft<'_>) -> Order
    ensures { (doc_of draft.entry).kind ≡ Kind.Bests → result ≢ Order.Free }
{
    match draft.text("time", "order") {
        Some("symbol") => Order::Symbol,
        Some("free") if draft.kind != Kind::Bests => Order::Free,
        Some(_) | None => Order::Given,
    }
}

/// What the texts of a file mean.
fn meanings_in(alloc: Global, draft: Draft<'_>) -> Result<Meanings, AllocError>
    ensures { IfOk result (AreMeaningsOf (doc_of draft.entry)) }
{
    let mut all = common_in(alloc, draft)?;
    all.size_unit = shares_in(draft);
    all.own_lots = draft.text("size", "lot") == Some("setup");
    all.withdraws = draft.text("file", "on_refused") != Some("keep");
    all.half = half_in(draft);
    add_words(alloc, draft, "price", "none", &mut all.no_price)?;
    add_states(alloc, draft, &mut all.said)?;
    all.sides = sides_in(alloc, draft)?;
    Ok(all)
}

/// The words for the sides, if each row has one side.
fn sides_in(alloc: Global, draft: Draft<'_>) -> Result<Option<SideWords>, AllocError>
    ensures { IfOk result (λ sides. is_some sides ≡ is_of_sides (doc_of draft.entry).kind) }
{
    if draft.kind != Kind::Sides {
        return Ok(None);
    }
    let mut words = SideWords {
        bids: Vec::new(alloc),
        offers: Vec::new(alloc),
    };
    add_words(alloc, draft, "side", "bid", &mut words.bids)?;
    add_words(alloc, draft, "side", "offer", &mut words.offers)?;
    Ok(Some(words))
}

/// The number of shares that a unit of size has: 1, or those of a lot.
fn shares_in(draft: Draft<'_>) -> u32
    ensures some { 0 < result }
    ensures few { result ≤ MOST_LOT }
{
    match (
        draft.text("size", "unit"),
        number_in(draft, "size", "lot", MOST_LOT),
    ) {
        (Some("lots"), Some(shares)) => u32::from(shares),
        (Some(_) | None, _) => 1,
    }
}

/// What is done with a row that has only one manual side.
fn half_in(draft: Draft<'_>) -> Half {
    match draft.text("state", "half") {
        Some("manual") => Half::Manual,
        Some("automated") => Half::Automated,
        Some(_) | None => Half::Refuse,
    }
}

/// Adds the conditions that the document lists. Without the table `state` only the empty condition is known, and it is
/// automated.
fn add_states(alloc: Global, draft: Draft<'_>, said: &mut Vec<Said>) -> Result<(), AllocError> {
    if draft.members("state").is_none() {
        let word = Vec::new(alloc);
        let meaning = Meaning::Quoted(QState::Automated);
        said.push(Said { word, meaning })?;
        return Ok(());
    }
    for (key, meaning) in [
        ("automated", Meaning::Quoted(QState::Automated)),
        ("manual", Meaning::Quoted(QState::Manual)),
        ("manual_bid", Meaning::ManualSide(Side::Bid)),
        ("manual_offer", Meaning::ManualSide(Side::Offer)),
        ("halted", Meaning::Quoted(QState::Halted)),
        ("none", Meaning::Nothing),
    ] {
        add_conditions(alloc, draft, key, meaning, said)?;
    }
    Ok(())
}

/// Adds the conditions that the document lists at a key of the table `state`, each with the given meaning.
fn add_conditions(
    alloc: Global,
    draft: Draft<'_>,
    key: &str,
    meaning: Meaning,
    said: &mut Vec<Said>,
) -> Result<(), AllocError> {
    for value in draft.items("state", key) {
        if let Some(text) = value.as_str() {
            let word = Vec::from_slice(alloc, text.as_bytes())?;
            said.push(Said { word, meaning })?;
        }
    }
    Ok(())
}

/// The key of a column. It is the other key, if the document has that one in its place.
pub fn key_of(draft: Draft<'_>, key: &'static str, other: &'static str) -> &'static str {
    if draft.value("column", key).is_none() && draft.value("column", other).is_some() {
        other
    } else {
        key
    }
}

/// The keys of the two columns of a side: its price and its size.
type SideKeys = (&'static str, &'static str);

/// The keys of the bid's columns, if each row has both sides. A mapping of rows of one side has no such keys.
const BOTH_SIDES: SideKeys = ("bid", "bid_size");

/// The keys of the columns of a row's side, if each row has one side.
const ONE_SIDE: SideKeys = ("price", "size");

/// The keys of the bid's columns. If each row has one side, they are the keys of that side.
fn bid_keys(draft: Draft<'_>) -> SideKeys {
    if draft.kind == Kind::Sides {
        ONE_SIDE
    } else {
        BOTH_SIDES
    }
}

/// The keys of the offer's columns. A mapping of rows of one side has no such keys.
fn offer_keys(draft: Draft<'_>) -> SideKeys {
    (
        key_of(draft, "offer", "ask"),
        key_of(draft, "offer_size", "ask_size"),
    )
}

/// What the mapping says of the columns.
fn sources_in(
    alloc: Global,
    draft: Draft<'_>,
    participant: &'static str,
    bid_keys: SideKeys,
    offer_keys: SideKeys,
) -> Result<Sources, AllocError> {
    let mut all = Sources {
        participant_key: participant,
        bid_keys,
        offer_keys,
        time: Source::nothing(alloc),
        participant: Source::nothing(alloc),
        symbol: Source::nothing(alloc),
        bid: Source::nothing(alloc),
        bid_size: Source::nothing(alloc),
        offer: Source::nothing(alloc),
        offer_size: Source::nothing(alloc),
        side: Source::nothing(alloc),
        source: Source::nothing(alloc),
        condition: Source::nothing(alloc),
        skip: Source::nothing(alloc),
    };
    all.time = source_at(alloc, draft, "time")?;
    all.participant = source_at(alloc, draft, participant)?;
    all.symbol = source_at(alloc, draft, "symbol")?;
    all.side = source_at(alloc, draft, "side")?;
    all.bid = source_at(alloc, draft, bid_keys.0)?;
    all.bid_size = source_at(alloc, draft, bid_keys.1)?;
    all.offer = source_at(alloc, draft, offer_keys.0)?;
    all.offer_size = source_at(alloc, draft, offer_keys.1)?;
    all.skip = source_at(alloc, draft, "skip")?;
    match draft.items("column", "condition") {
        [first, second] => {
            all.source = source_of(alloc, first)?;
            all.condition = source_of(alloc, second)?;
        }
        [only] => all.condition = source_of(alloc, only)?,
        _ => all.condition = source_at(alloc, draft, "condition")?,
    }
    Ok(all)
}
