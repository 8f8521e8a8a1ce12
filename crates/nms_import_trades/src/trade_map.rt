//! A mapping of a file of trades, from its TOML document: `specs/TradeMap` and `specs/TradePlacing`.
ghost use Rattle.std.specs.Prelude.{◌≡◌, ◌++◌, max, map, false, true, IfErr, IfOk, OnOk};
ghost use Rattle.std.specs.List.{list_any};
ghost use Rattle.std.specs.Option.{option_map_or};
ghost use Rattle.csv.specs.Records.{fields_of};
ghost use Rattle.toml.specs.View.{table_view};
ghost use Rattle.nms_import.specs.declared.keys.Kind.TheVariants as kind;
ghost use Rattle.nms_import.specs.Drafts.{doc_of, plain};
ghost use Rattle.nms_import.specs.Findings.{IsFirst, faults_of};
ghost use Rattle.nms_import.specs.Readings.{is_within};
ghost use Rattle.nms_import.specs.Refusals.{is_of_first_row};
ghost use Rattle.nms_import_trades.specs.TradeMap.{AreTradesOf, IsMappingOf, all_flags, are_within, says_trades};
ghost use Rattle.nms_import_trades.specs.TradePlacing.{IsIdPlaced, needed_by_id};
ghost use Rattle.nms_import_trades.specs.TradeRow.{has_letter, is_claim};

use crate::claim::{Claim, Flag};
use crate::condition::{has_letter, is_claim};
use crate::trade_columns::TradeColumns;
use crate::trade_meanings::TradeMeanings;
use csv::ByteRecord;
use nms_import::{
    Column, Draft, FileForm, Kind, MapFault, Source, add_words, byte_in, check, common_in, file_in,
    place_of, source_at,
};
use std::alloc::{AllocError, Global};
use toml::Table;

/// What a mapping says about the columns.
struct TradeSources {
    id: Option<Source>,
    time: Source,
    participant: Source,
    symbol: Source,
    price: Source,
    shares: Source,
    side: Source,
    condition: Source,
    exempt: Source,
    skip: Source,
}

/// The columns have their own `Drop`. A function that holds them has one call at each exit, and not one for each column
/// (docs/GATE.md).
impl Drop for TradeSources {
    fn drop(self) {
        let TradeSources {
            id: _,
            time: _,
            participant: _,
            symbol: _,
            price: _,
            shares: _,
            side: _,
            condition: _,
            exempt: _,
            skip: _,
        } = self;
    }
}

/// A mapping of trades.
#[derive(Drop)]
pub struct TradeMapping {
    /// How the file is laid out.
    pub file: FileForm,
    /// What the texts of the file mean.
    pub meanings: TradeMeanings,
    sources: TradeSources,
}

impl TradeMapping {
    ghost use Rattle.std.specs.Prelude.{◌≡◌, IfErr, IfOk, true};
    ghost use Rattle.csv.specs.Records.{fields_of};
    ghost use Rattle.nms_import.specs.Readings.{is_within};
    ghost use Rattle.nms_import.specs.Refusals.{is_of_first_row};
    ghost use Rattle.nms_import_trades.specs.TradePlacing.{ArePlaced, width_of};

    /// The columns of a file whose first row is `names`; `names` is empty if the file has no header.
    ///
    /// `NoColumn` is the first key of the table `column` whose name the row lacks.
    pub fn columns(
        &self,
        alloc: Global,
        names: &ByteRecord,
    ) -> Result<TradeColumns, MapFault<'static>>
        ensures placed { IfOk result (λ columns. ArePlaced self.now (fields_of names.now) columns) }
        ensures width { IfOk result (λ columns. columns.width ≡ width_of columns) }
        ensures fault { IfErr result (λ fault. is_of_first_row fault ≡ true) }
    {
        let from = &self.sources;
        let mut all = TradeColumns::none(alloc);
        let width = &mut all.width;
        all.id = place_of_id(alloc, &from.id, names, width)?;
        all.time = place_of(alloc, &from.time, "time", names, width)?;
        all.participant = place_of(alloc, &from.participant, "participant", names, width)?;
        all.symbol = place_of(alloc, &from.symbol, "symbol", names, width)?;
        all.price = place_of(alloc, &from.price, "price", names, width)?;
        all.shares = place_of(alloc, &from.shares, "shares", names, width)?;
        all.side = place_of(alloc, &from.side, "side", names, width)?;
        all.condition = place_of(alloc, &from.condition, "condition", names, width)?;
        all.exempt = place_of(alloc, &from.exempt, "exempt", names, width)?;
        all.skip = place_of(alloc, &from.skip, "skip", names, width)?;
        Ok(all)
    }
}

/// The place of the column with the name of an execution, if the mapping has such a column.
fn place_of_id(
    alloc: Global,
    source: &Option<Source>,
    names: &ByteRecord,
    width: &mut usize,
) -> Result<Option<Column>, MapFault<'static>>
    ensures placed { IfOk result (λ id. IsIdPlaced source.now (fields_of names.now) id) }
    ensures width { IfOk result (λ id. width.new ≡ max width.old (needed_by_id id)) }
    ensures fault { IfErr result (λ fault. is_of_first_row fault ≡ true) }
{
    match source {
        Some(source) => Ok(Some(place_of(alloc, source, "id", names, width)?)),
        None => Ok(None),
    }
}

/// Whether a document is a mapping of trades: `[file] kind = "trades"`.
pub fn is_of_trades(document: &Table) -> bool
    ensures { result ≡ says_trades (table_view document.now) }
{
    match Draft::new(Kind::Trades, document).text("file", "kind") {
        Some(kind) => kind == "trades",
        None => false,
    }
}

/// The mapping of trades that a document gives, or the first of its faults.
pub fn trade_mapping_of(alloc: Global, document: &Table) -> Result<TradeMapping, MapFault<'_>>
    ensures mapping { IfOk result (IsMappingOf (plain kind.Trades (table_view document.now))) }
    ensures refused { IfErr result (IsFirst (faults_of (plain kind.Trades (table_view document.now)))) }
{
    trade_mapping_by(alloc, Draft::new(Kind::Trades, document))
}

/// The mapping that a document gives, or the first of its faults.
fn trade_mapping_by<'a>(alloc: Global, draft: Draft<'a>) -> Result<TradeMapping, MapFault<'a>>
    ensures mapping { IfOk result (IsMappingOf (doc_of draft.entry)) }
    ensures refused { IfErr result (IsFirst (faults_of (doc_of draft.entry))) }
{
    check(alloc, draft)?;
    let meanings = meanings_in(alloc, draft)?;
    Ok(TradeMapping {
        file: file_in(draft),
        meanings,
        sources: sources_in(alloc, draft)?,
    })
}

/// What the mapping says about the columns.
fn sources_in(alloc: Global, draft: Draft<'_>) -> Result<TradeSources, AllocError>
    ensures { IfOk result (λ sources. are_within sources ≡ true) }
{
    let mut all = TradeSources {
        id: None,
        time: Source::nothing(alloc),
        participant: Source::nothing(alloc),
        symbol: Source::nothing(alloc),
        price: Source::nothing(alloc),
        shares: Source::nothing(alloc),
        side: Source::nothing(alloc),
        condition: Source::nothing(alloc),
        exempt: Source::nothing(alloc),
        skip: Source::nothing(alloc),
    };
    all.id = id_in(alloc, draft)?;
    all.time = source_at(alloc, draft, "time")?;
    all.participant = source_at(alloc, draft, "participant")?;
    all.symbol = source_at(alloc, draft, "symbol")?;
    all.price = source_at(alloc, draft, "price")?;
    all.shares = source_at(alloc, draft, "shares")?;
    all.side = source_at(alloc, draft, "side")?;
    all.condition = source_at(alloc, draft, "condition")?;
    all.exempt = source_at(alloc, draft, "exempt")?;
    all.skip = source_at(alloc, draft, "skip")?;
    Ok(all)
}

/// The column of an execution's name, if the mapping has one.
fn id_in(alloc: Global, draft: Draft<'_>) -> Result<Option<Source>, AllocError>
    ensures { IfOk result (λ id. option_map_or is_within id true ≡ true) }
{
    if draft.value("column", "id").is_none() {
        return Ok(None);
    }
    match source_at(alloc, draft, "id") {
        Ok(source) => Ok(Some(source)),
        Err(error) => Err(error),
    }
}

/// What the texts of a file mean.
fn meanings_in(alloc: Global, draft: Draft<'_>) -> Result<TradeMeanings, AllocError>
    ensures { IfOk result (AreTradesOf (doc_of draft.entry)) }
{
    let mut all = TradeMeanings {
        common: common_in(alloc, draft)?,
        bought: Vec::new(alloc),
        sold: Vec::new(alloc),
        neither: Vec::new(alloc),
        claims: Vec::new(alloc),
        nothing: Vec::new(alloc),
        no_trade: Vec::new(alloc),
        kept: Vec::new(alloc),
        marked: Vec::new(alloc),
        unmarked: Vec::new(alloc),
    };
    add_words(alloc, draft, "side", "bought", &mut all.bought)?;
    add_words(alloc, draft, "side", "sold", &mut all.sold)?;
    add_words(alloc, draft, "side", "neither", &mut all.neither)?;
    add_words(alloc, draft, "exempt", "yes", &mut all.marked)?;
    add_words(alloc, draft, "exempt", "no", &mut all.unmarked)?;
    add_words(alloc, draft, "skip", "kept", &mut all.kept)?;
    add_all_claims(alloc, draft, &mut all.claims)?;
    add_others(draft, "nothing", &all.claims, &[], &mut all.nothing)?;
    add_others(
        draft,
        "no_trade",
        &all.claims,
        &all.nothing,
        &mut all.no_trade,
    )?;
    Ok(all)
}

/// Adds each flag with the letters that claim it.
fn add_all_claims(
    alloc: Global,
    draft: Draft<'_>,
    claims: &mut Vec<Claim>,
) -> Result<(), AllocError>
    ensures { OnOk result (map (λ it. it.flag) claims.new.items ≡ map (λ it. it.flag) claims.old.items ++ all_flags) }
{
    let flags = [
        ("not_regular", Flag::NotRegular),
        ("single_priced", Flag::SinglePriced),
        ("sweep", Flag::Sweep),
        ("swept", Flag::Swept),
        ("benchmark", Flag::Benchmark),
        ("stopped", Flag::Stopped),
        ("contingent", Flag::Contingent),
        ("exempt", Flag::Exempt),
        ("outside_hours", Flag::OutsideHours),
        ("out_of_sequence", Flag::OutOfSequence),
    ];
    add_claims(alloc, draft, &flags, claims)
}

/// Adds flags, each with the letters that the document lists at the flag's key.
fn add_claims(
    alloc: Global,
    draft: Draft<'_>,
    flags: &[(&'static str, Flag)],
    claims: &mut Vec<Claim>,
) -> Result<(), AllocError>
    ensures { OnOk result (map (λ it. it.flag) claims.new.items ≡ map (λ it. it.flag) claims.old.items ++ map (λ it. it.1) flags.now) }
{
    for named in flags {
        let mut letters = Vec::new(alloc);
        add_letters(draft, named.0, &mut letters)?;
        let flag = named.1;
        claims.push(Claim { flag, letters })?;
    }
    Ok(())
}

/// Adds the letters that the document lists at a key of the table `flags`.
fn add_letters(draft: Draft<'_>, key: &str, letters: &mut Vec<u8>) -> Result<(), AllocError> {
    for value in draft.items("flags", key) {
        if let Some(letter) = byte_in(value) {
            letters.push(letter)?;
        }
    }
    Ok(())
}

/// Adds the letters at a key of the table `flags`, except those that claim a flag or are in another list. A mapping without
/// fault has no such letters there.
fn add_others(
    draft: Draft<'_>,
    key: &str,
    claims: &[Claim],
    those: &[u8],
    letters: &mut Vec<u8>,
) -> Result<(), AllocError>
    requires claims { list_any (is_claim claims.now) letters.old.items ≡ false }
    requires those { list_any (has_letter those.now) letters.old.items ≡ false }
    ensures claims { OnOk result (list_any (is_claim claims.now) letters.new.items ≡ false) }
    ensures those { OnOk result (list_any (has_letter those.now) letters.new.items ≡ false) }
{
    for value in draft.items("flags", key) {
        if let Some(letter) = byte_in(value) {
            add_other(claims, those, letter, letters)?;
        }
    }
    Ok(())
}

/// Adds a letter to a list, unless the letter claims a flag or is in another list.
fn add_other(
    claims: &[Claim],
    those: &[u8],
    letter: u8,
    letters: &mut Vec<u8>,
) -> Result<(), AllocError>
    requires claims { list_any (is_claim claims.now) letters.old.items ≡ false }
    requires those { list_any (has_letter those.now) letters.old.items ≡ false }
    ensures claims { OnOk result (list_any (is_claim claims.now) letters.new.items ≡ false) }
    ensures those { OnOk result (list_any (has_letter those.now) letters.new.items ≡ false) }
{
    if is_claim(claims, letter) || has_letter(those, letter) {
        return Ok(());
    }
    letters.push(letter)?;
    Ok(())
}
