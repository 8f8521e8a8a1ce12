//! What a code means, and what to do about it.
ghost use Rattle.nms_show.specs.Safe.{IsSafe};
ghost use Rattle.nms_show.specs.Written.{Writes};

use crate::execution_code::ExecutionCode;
use crate::other_codes::OTHERS;
use nms_codes::Code;
use nms_show::{Form, Item, SafeText, ShowFault};
use std::alloc::{AllocError, Global};
use std::io::Write;

/// The codes of the reviewer's program.
const CODES: [Code; 51] = [
    Code::A1,
    Code::B1,
    Code::C1,
    Code::C2,
    Code::C3,
    Code::C4,
    Code::C5,
    Code::C6,
    Code::C7,
    Code::C8,
    Code::C9,
    Code::E1,
    Code::E2,
    Code::E3,
    Code::E3Rows,
    Code::E4,
    Code::F4,
    Code::G2,
    Code::H1,
    Code::H2,
    Code::H3,
    Code::H4,
    Code::I1,
    Code::I2,
    Code::I3,
    Code::I4,
    Code::I5,
    Code::J1,
    Code::J2,
    Code::J3,
    Code::L1,
    Code::L2,
    Code::L3,
    Code::L4,
    Code::L5,
    Code::L6,
    Code::L7,
    Code::L8,
    Code::L9,
    Code::L10,
    Code::L11,
    Code::L12,
    Code::L13,
    Code::L14,
    Code::M1,
    Code::M2,
    Code::M3,
    Code::M4,
    Code::M5,
    Code::M6,
    Code::Usage,
];

/// What is printed about a code.
#[derive(Clone, Copy)]
pub(crate) struct CodeWords {
    /// The code, as it is printed.
    pub(crate) code: &'static str,
    /// The sentence that says what the code means.
    pub(crate) sentence: &'static str,
    /// What to do about the code, or an empty text.
    pub(crate) remedy: &'static str,
}

/// Prints what a code means and what to do about it, for each meaning if it has several. Returns whether there is such a code;
/// if not, nothing is printed.
///
/// The answers are not flushed. What is written is safe to show on a terminal. At a fault it is a prefix of such a text.
#[tactic(auto, using(nms_show::proofs::Offered::no_part_added))]
pub fn explain_code<W: Write>(
    alloc: Global,
    code: &str,
    form: Form,
    answers: &mut W,
) -> Result<bool, ShowFault>
    ensures safe { Writes IsSafe (W.contents answers.old) (W.contents answers.new) result }
{
    let mut out = SafeText::new(alloc, form);
    let is_told = tell_code(code, &mut out)?;
    out.pass_on(answers)?;
    Ok(is_told)
}

/// Writes each meaning of a code: in the reviewer's program, of a refused execution, in the other programs or the library.
/// Returns whether the code has any meaning.
fn tell_code(code: &str, out: &mut SafeText) -> Result<bool, AllocError> {
    let mut is_told = false;
    for own in CODES {
        let words = CodeWords {
            code: own.text(),
            sentence: own.sentence(),
            remedy: own.remedy(),
        };
        let is_it = tell_named(words, code, out)?;
        is_told = is_told || is_it;
    }
    for own in ExecutionCode::ALL {
        let words = CodeWords {
            code: own.text(),
            sentence: own.sentence(),
            remedy: own.remedy(),
        };
        let is_it = tell_named(words, code, out)?;
        is_told = is_told || is_it;
    }
    for words in OTHERS.iter() {
        let is_it = tell_named(*words, code, out)?;
        is_told = is_told || is_it;
    }
    Ok(is_told)
}

/// Writes a code if it is the one that is asked for. Returns whether it is the one.
fn tell_named(words: CodeWords, code: &str, out: &mut SafeText) -> Result<bool, AllocError> {
    if words.code != code {
        return Ok(false);
    }
    tell_words(words, out)?;
    Ok(true)
}

/// Writes a code with its sentence, and what to do about it.
fn tell_words(words: CodeWords, out: &mut SafeText) -> Result<(), AllocError> {
    let (code, sentence) = (words.code.as_bytes(), words.sentence.as_bytes());
    if out.is_json() {
        return out.object(&[
            ("what", Item::Text("code")),
            ("code", Item::Bytes(code)),
            ("sentence", Item::Bytes(sentence)),
            ("remedy", Item::Bytes(words.remedy.as_bytes())),
        ]);
    }
    out.line(&[Item::Bytes(code), Item::Text(": "), Item::Bytes(sentence)])?;
    out.advice(words.remedy)
}
