ghost use Rattle.std.specs.Prelude.{◌≡◌};
ghost use Rattle.sk_lines.specs.declared.code.ReadError.TheVariants.{NoMemory, Refused};

use sk_base::NoMemory;
use thiserror::Error;

/// Why a line, a text or an edit is refused.
#[derive(Clone, Copy, Debug, PartialEq, Eq)]
pub enum Code {
    /// The first line that isn't blank is neither `sketch 1` nor `sketch 2`.
    E1,
    /// The first word is unknown.
    E2,
    /// The number of words is wrong.
    E3,
    /// A word in a name's place isn't a name.
    E4,
    /// A declared name is in use.
    E5,
    /// A name isn't declared.
    E6,
    /// The kinds of the elements don't fit.
    E7,
    /// A word in a number's place isn't one, passes its limit, or is a negative length or radius.
    E8,
    /// A length, a radius or an angle's `p` is 0, `inside` has equal radii, or two places of a block are equal.
    E9,
    /// Two names are one element.
    E10,
    /// The two drawn places of a line are equal.
    E11,
    /// A `circle` line has exactly four words.
    E12,
    /// 2,000 elements stand already.
    E13,
    /// 4,000 constraints stand already.
    E14,
    /// The line has more than 200 bytes.
    E15,
    /// The text ends without `end`.
    E16,
    /// A line that isn't blank follows `end`.
    E17,
    /// No line has a word, or `end` comes before any element.
    E18,
    /// A byte is neither 0x20 to 0x7E nor a tab.
    E19,
    /// The text has more than 1,048,576 bytes.
    E20,
    /// 64 lines of flips stand already.
    E21,
    /// No constraint has the number.
    S1,
    /// A constraint uses the element.
    S2,
    /// No accepted edit stands.
    S3,
    /// The constraint has no value to set.
    S4,
    /// 1,000,000 edits and undos were accepted.
    S5,
}

impl Code {
    ghost use Rattle.sk_lines.specs.CodeTexts.{code_text, code_word};

    /// The code as it is printed.
    pub fn text(self) -> &'static str
        ensures { result.now ≡ code_text self }
    {
        match self {
            Code::E1 => "E1",
            Code::E2 => "E2",
            Code::E3 => "E3",
            Code::E4 => "E4",
            Code::E5 => "E5",
            Code::E6 => "E6",
            Code::E7 => "E7",
            Code::E8 => "E8",
            Code::E9 => "E9",
            Code::E10 => "E10",
            Code::E11 => "E11",
            Code::E12 => "E12",
            Code::E13 => "E13",
            Code::E14 => "E14",
            Code::E15 => "E15",
            Code::E16 => "E16",
            Code::E17 => "E17",
            Code::E18 => "E18",
            Code::E19 => "E19",
            Code::E20 => "E20",
            Code::E21 => "E21",
            Code::S1 => "S1",
            Code::S2 => "S2",
            Code::S3 => "S3",
            Code::S4 => "S4",
            Code::S5 => "S5",
        }
    }

    /// The word that is printed behind the code.
    pub fn word(self) -> &'static str
        ensures { result.now ≡ code_word self }
    {
        match self {
            Code::E1 => "header",
            Code::E2 => "word",
            Code::E3 => "shape",
            Code::E4 => "name",
            Code::E5 => "name-taken",
            Code::E6 => "unknown",
            Code::E7 => "kind",
            Code::E8 => "number",
            Code::E9 => "zero",
            Code::E10 => "same",
            Code::E11 => "drawn-flat",
            Code::E12 => "variable-radius",
            Code::E13 => "too-many-elements",
            Code::E14 => "too-many-constraints",
            Code::E15 => "line-too-long",
            Code::E16 => "no-end",
            Code::E17 => "after-end",
            Code::E18 => "empty",
            Code::E19 => "not-ascii",
            Code::E20 => "too-long",
            Code::E21 => "too-many-flips",
            Code::S1 => "no-such-number",
            Code::S2 => "in-use",
            Code::S3 => "nothing-to-undo",
            Code::S4 => "no-value",
            Code::S5 => "edits-spent",
        }
    }
}

/// The first line that is refused, from 1, and its first code. The line is 0 where the whole text is refused.
#[derive(Clone, Copy, Debug, PartialEq, Eq)]
pub struct Refusal {
    pub line: u32,
    pub code: Code,
}

/// Why a text isn't read.
#[derive(Clone, Copy, Debug, PartialEq, Eq, Error)]
pub enum ReadError {
    #[error("line {line} is refused: {code} {word}", line = .0.line, code = .0.code.text(), word = .0.code.word())]
    Refused(Refusal),
    #[error("memory ran out")]
    NoMemory,
}

impl ReadError {
    /// The refusal of that line with that code.
    pub fn refused(line: u32, code: Code) -> ReadError
        ensures { result ≡ Refused (record { line = line; code = code }) }
    {
        ReadError::Refused(Refusal { line, code })
    }
}

impl From<NoMemory> for ReadError {
    ghost from_gives = { λ _ error. error ≡ NoMemory };

    fn from(_error: NoMemory) -> ReadError {
        ReadError::NoMemory
    }
}
