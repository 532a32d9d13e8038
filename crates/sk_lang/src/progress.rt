use crate::draft::Draft;
use sk_base::Sketch;
use sk_lines::Version;

/// How far a text has been read: not yet to its header, within a sketch so far,
/// or past its end.
#[derive(Drop)]
pub(crate) enum Progress {
    Before,
    Within(Version, Draft),
    After(Version, Sketch),
}
