//! What to do about each code, in the words of docs/ERRORS.md.
ghost use Rattle.std.specs.Prelude.{◌≡◌, true};
ghost use Rattle.nms_show.specs.Plain.{is_plain};

use crate::code::Code;

impl Code {
    /// What to do about the code.
    pub fn remedy(self) -> &'static str
        ensures { is_plain result.now ≡ true }
    {
        match self {
            Code::A1 => "Get the whole file; later changes do no harm.",
            Code::B1 | Code::C9 | Code::E4 | Code::G2 | Code::L12 | Code::M6 =>
                "give the process more memory",
            Code::C1 =>
                "mend this line, or begin from examples/builtin.toml; two brackets begin each participant and each symbol",
            Code::C2 =>
                "write the key: all but caps and feeds are required; a misspelt key is C2, since the right one is absent",
            Code::C3 => "take it out, or correct its spelling",
            Code::C4 =>
                "1 to 4 of A to Z and 0 to 9 for a participant, 1 to 8 of these and the point for a symbol; each name once",
            Code::C5 =>
                "names and feeds in quotes, numbers without; two brackets round participant and symbol",
            Code::C6 => "choose a value of the range; docs/FORMATS.md has all ranges",
            Code::C7 => "the fee is not lawful under that cap: correct it, or the year at caps",
            Code::C8 => "split the symbols over several runs",
            Code::E1 => "`cat FILES > /dev/null` names it.",
            Code::E2 | Code::L13 => "Its reader has gone, or a disk is full.",
            Code::E3 =>
                "Begin another script with what `nms_review opening` prints; split the run of a feed.",
            Code::E3Rows => "Split the files over several runs.",
            Code::F4 => "Set `tape_limit` higher, up to 10,000,000.",
            Code::H1 => "Is it `NAME.times`, whole?",
            Code::H2 => "If the file is sorted by symbol, give `--symbols`.",
            Code::H3 => "Are both files of one import?",
            Code::H4 => "Is it `NAME.symbols` of the same import?",
            Code::I1 => "Is it the mapping of these files?",
            Code::I2 => "Are the sizes lots? Set `size.unit`.",
            Code::I3 => "Sort the rows, or set `time.order`.",
            Code::I4 => "Fetch the file again, or name no `count` in the mapping.",
            Code::I5 => "Is it the setup of these files? Name it by `--setup`.",
            Code::J1 => "Are both of one import?",
            Code::J2 =>
                "With `order = \"symbol\"` the setup has the symbols in the order of the file.",
            Code::J3 => "Sort them as the quotes, or set `time.order`.",
            Code::L1 =>
                "Look at the first field: kinds are one capital letter, and small letters are none.",
            Code::L2 =>
                "Count the commas. An empty side of `Q` still has its two fields: `Q,N,ABC,A,9.99,100,,`.",
            Code::L3 | Code::L4 =>
                "Names are case-sensitive, and spaces count. Is it in the setup that is used?",
            Code::L5 => "Write the capital letter, or `AVG` in capitals.",
            Code::L6 =>
                "No signs, no spaces, at most four decimals. For no quotation leave both fields of the side empty.",
            Code::L7 => "Whole shares, without separators; at most 999,999,999.",
            Code::L8 => "Give both or neither.",
            Code::L9 =>
                "Send the change on its participant's feed, or set `feed` in the setup. Send round lots on feed A.",
            Code::L10 => "Desks count from 0: with `desks = 2` they are 0 and 1.",
            Code::L11 =>
                "Is it the file that the planner wrote, whole, and the setup that it was made under?",
            Code::L14 =>
                "Whole shares, at most 1,000, without separators. For an average closing price put `AVG` before it.",
            Code::M1 => "Mend this line.",
            Code::M2 => "Write the key.",
            Code::M3 => "Is it misspelt?",
            Code::M4 => "Choose an allowed one.",
            Code::M5 => "Capitals count.",
            Code::Usage => "See `nms_review --help`.",
        }
    }
}
