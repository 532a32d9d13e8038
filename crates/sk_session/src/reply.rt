use sk_base::{ConId, Elem};
use sk_lines::Code;
use sk_tree::Plan;
use sk_verdict::Judgement;

/// What a session answers to one line.
#[derive(Drop)]
pub enum Reply {
    /// A line without words.
    Blank,
    /// An accepted drop, setting, erasure or undo.
    Done,
    /// An accepted element line, with the element's number.
    Declared(Elem),
    /// An accepted constraint line, with the constraint's number.
    Constrained(ConId),
    /// A line with a code.
    Refused(Code),
    /// The judgement on the sketch.
    Checked(Judgement),
    /// The plan of the sketch.
    Planned(Plan),
    /// The judgement on a sketch that has no plan, as its verdict isn't well.
    NotWell(Judgement),
    /// The command `solve`.
    Solve,
    /// The command `write`.
    Write,
    /// The command `end`.
    End,
}
