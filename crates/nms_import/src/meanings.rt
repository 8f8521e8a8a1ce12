//! What the texts of a file mean: `specs/Mapping`.
use nms_quote::{QState, Side};

/// The unit of a price.
#[derive(Clone, Copy)]
pub enum PriceUnit {
    /// Dollars: 1 to 7 digits, and at most a point with 1 to 4 digits, and zeros after them.
    Dollars,
    /// 1/10,000 dollar: 1 to 11 digits.
    TenThousandths,
    /// Nanodollars: 1 to 19 digits, a whole number of 1/10,000 dollar.
    Nanodollars,
}

/// The form in which a time of day is written. Times with a date are moved on by the mapping's zone.
#[derive(Clone, Copy)]
pub enum TimeForm {
    /// `HHMMSSn`: six digits and up to nine after them.
    Clock,
    /// `HH:MM:SS`: at most a point with 1 to 9 digits after it.
    Colons,
    /// `seconds`: seconds after midnight, 1 to 5 digits, and at most a point with 1 to 9 digits.
    Seconds,
    /// `unix_ns`: nanoseconds since 1970, 1 to 19 digits.
    UnixNanoseconds,
    /// `unix_us`: microseconds since 1970, 1 to 16 digits.
    UnixMicroseconds,
    /// `unix_ms`: milliseconds since 1970, 1 to 13 digits.
    UnixMilliseconds,
    /// `iso`: a date, `T` or a blank, a time as `HH:MM:SS`, and at most a `Z` or an offset from UTC, as `-05:00`.
    Iso,
}

/// How times with a date are moved to the clock of the market.
#[derive(Clone, Copy)]
pub enum Zone {
    /// The mapping names no zone: times are read as they are written, and a time that counts from UTC is not read.
    Unsaid,
    /// Times are moved on by a number of seconds, over midnight: 68,400 for a zone of `-0500`.
    Moved(u32),
    /// Times are moved to New York's time at the same instant.
    NewYork,
}

/// What becomes of a row whose condition makes only one side manual.
#[derive(Clone, Copy)]
pub enum Half {
    /// The row is refused.
    Refuse,
    /// Both sides are manual.
    Manual,
    /// Both sides are automated.
    Automated,
}

/// What the condition of a row means.
#[derive(Clone, Copy)]
pub enum Meaning {
    /// The sides are quoted in this state.
    Quoted(QState),
    /// There is no quotation on either side.
    Nothing,
    /// Only this side is manual, and the other is automated.
    ManualSide(Side),
}

/// A word of a list.
#[derive(Drop)]
pub struct Word {
    /// The bytes of the word.
    pub text: Vec<u8>,
}

/// A word of the file for a participant, and the participant's name on the roster.
#[derive(Drop)]
pub struct Renamed {
    /// The word in the file.
    pub word: Vec<u8>,
    /// The name on the roster.
    pub name: Vec<u8>,
}

/// A byte of the file's symbols, and the byte that replaces it on the roster.
#[derive(Clone, Copy)]
pub struct Replaced {
    /// The byte in the file.
    pub from: u8,
    /// The byte on the roster.
    pub to: u8,
}

/// A condition, and what it means.
#[derive(Drop)]
pub struct Said {
    /// The two texts of the condition, one after the other.
    pub word: Vec<u8>,
    /// What the condition means.
    pub meaning: Meaning,
}

/// The words for the sides, if each row has one side.
#[derive(Drop)]
pub struct SideWords {
    /// The words for a bid.
    pub bids: Vec<Word>,
    /// The words for an offer.
    pub offers: Vec<Word>,
}

/// What the texts of a file mean.
pub struct Meanings {
    /// How a time is written.
    pub time_form: TimeForm,
    /// How a time is moved to the clock of the market.
    pub zone: Zone,
    /// The unit of a price.
    pub price_unit: PriceUnit,
    /// The words that mean no price.
    pub no_price: Vec<Word>,
    /// The number of shares that a unit of size has: 1, or those of a lot.
    pub size_unit: u32,
    /// Whether a unit of size is the round lot that the setup gives the row's symbol. Then `size_unit` is not used.
    pub own_lots: bool,
    /// The participants that have another name on the roster.
    pub names: Vec<Renamed>,
    /// Whether any other participant has the same name on the roster as in the file.
    pub same: bool,
    /// The bytes that are replaced in symbols. The first pair that fits is used.
    pub replaced: Vec<Replaced>,
    /// Whether symbols that are not on the roster are skipped; else they are refused.
    pub skips_symbols: bool,
    /// The conditions that the mapping lists, each with its meaning.
    pub said: Vec<Said>,
    /// What is done with a row that has only one manual side.
    pub half: Half,
    /// The words for the side of a row; `None` if each row has both sides.
    pub sides: Option<SideWords>,
    /// Whether the participant of a refused row shows nothing of its symbol until its next row; else the earlier quotation is kept.
    pub withdraws: bool,
    /// The words that a last line begins with.
    pub ends: Vec<Word>,
    /// The words by which a row is skipped.
    pub skips: Vec<Word>,
}

/// The meanings have their own `Drop`. A function that holds them has one call at each exit, and not one for each part
/// (docs/GATE.md).
impl Drop for Meanings {
    fn drop(self) {
        let Meanings {
            time_form: _,
            zone: _,
            price_unit: _,
            no_price: _,
            size_unit: _,
            own_lots: _,
            names: _,
            same: _,
            replaced: _,
            skips_symbols: _,
            said: _,
            half: _,
            sides: _,
            withdraws: _,
            ends: _,
            skips: _,
        } = self;
    }
}
