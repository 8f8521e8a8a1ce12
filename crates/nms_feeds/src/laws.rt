//! The laws about the lines of a stream: `specs/Laws`. The functions do nothing: their contracts are the laws.
ghost use Rattle.nms_feeds.specs.Laws.{EachLineIsReadAlone, PassesLinesOn, RefusesOneRecord};

/// The records of a feed's stream are those of its lines. Each line is passed on and read by itself, and has at most one
/// record. So a stray quote, a glued or a torn line costs one record. Every line after it is read as if it were the only one.
pub fn each_line_is_read_alone()
    ensures { EachLineIsReadAlone }
{}

/// The replacement of a line that is not passed on is one record, and every feed refuses it by `L1`.
pub fn a_refused_line_is_one_refused_record()
    ensures { RefusesOneRecord }
{}

/// A stream of lines that may be passed on is passed on as it is.
pub fn good_lines_are_passed_on()
    ensures { PassesLinesOn }
{}
