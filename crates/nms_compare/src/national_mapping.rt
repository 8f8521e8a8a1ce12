//! A mapping of a vendor's national bests. It is one of `import`, with two columns instead of that of the participant
//! (`specs/National`).
ghost use Rattle.std.specs.Prelude.{◌≡◌, IfErr, IfOk};
ghost use Rattle.csv.specs.Records.{fields_of};
ghost use Rattle.toml.specs.View.{table_view};
ghost use Rattle.nms_import.specs.declared.keys.Kind.TheVariants as kind;
ghost use Rattle.nms_import.specs.Drafts.{plain};
ghost use Rattle.nms_import.specs.Findings.{IsFirst, faults_of};
ghost use Rattle.nms_import.specs.Placing.{ArePlaced};
ghost use Rattle.nms_compare.specs.National.{IsNationalOf};

use crate::comparing::Vendor;
use csv::ByteRecord;
use nms_import::{Draft, FileForm, Kind, MapFault, Mapping, Order, key_of, mapping_by};
use std::alloc::Global;
use std::marker::Model;
use toml::Table;

/// A mapping of a vendor's national bests.
#[derive(Drop)]
pub struct NationalMapping {
    bids: Mapping,
    offers: Mapping,
}

impl Model for NationalMapping {
    ghost use Rattle.nms_compare.specs.National.{BySide};

    ghost Value = { BySide };

    ghost view = { λ m. record { bids = m.bids; offers = m.offers } };
}

/// The mapping of national bests of a document, or the first of its faults. It is a mapping of `import`, except for the table
/// `column`, which has `bid_participant` and `offer_participant` (or `ask_participant`) in place of `participant`; and `order` is not `free`.
pub fn national_mapping_of(alloc: Global, document: &Table) -> Result<NationalMapping, MapFault<'_>>
    ensures mapping { IfOk result (IsNationalOf (table_view document.now)) }
    ensures refused { IfErr result (IsFirst (faults_of (plain kind.Bests (table_view document.now)))) }
{
    let draft = Draft::new(Kind::Bests, document);
    let bids = mapping_by(alloc, draft, "bid_participant")?;
    let offers = key_of(draft, "offer_participant", "ask_participant");
    match mapping_by(alloc, draft, offers) {
        Ok(offers) => Ok(NationalMapping { bids, offers }),
        Err(fault) => Err(fault),
    }
}

impl NationalMapping {
    /// How the vendor's file is laid out.
    pub fn file(&self) -> FileForm
        ensures { result ≡ self.now.bids.file }
    {
        self.bids.file
    }

    /// The order of the rows, which is that of the changes too.
    pub fn order(&self) -> Order
        ensures { result ≡ self.now.bids.order }
    {
        self.bids.order
    }

    /// How the rows of a file are read if its first row is `names`, which is empty if there is no header. The fault `NoColumn`
    /// gives the first key of the table `column` whose name is not in that row.
    pub fn vendor(&self, alloc: Global, names: &ByteRecord) -> Result<Vendor<'_>, MapFault<'static>>
        ensures bids { IfOk result (λ vendor. ArePlaced self.now.bids.sources (fields_of names.now) vendor.bids) }
        ensures offers { IfOk result (λ vendor. ArePlaced self.now.offers.sources (fields_of names.now) vendor.offers) }
        ensures order { IfOk result (λ vendor. vendor.order ≡ self.now.bids.order) }
        ensures meanings { IfOk result (λ vendor. vendor.meanings.now ≡ self.now.bids.meanings) }
    {
        let bids = self.bids.columns(alloc, names)?;
        match self.offers.columns(alloc, names) {
            Ok(offers) => Ok(Vendor {
                bids,
                offers,
                meanings: &self.bids.meanings,
                order: self.bids.order,
            }),
            Err(fault) => Err(fault),
        }
    }
}
