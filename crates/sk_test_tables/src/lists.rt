//! Which tables are run in the same way.
use crate::{
    blocks, by_order, calls, checks, claims, closings, completed, derived, devices, drawn, excess,
    flips, framed, grown, measured, merges, offers, parts, placements, plans, reasons, refusals,
    refused_claims, sessions, settled, solves, spares, texts, tolerances, trees, verified,
    verified_signs, versions,
};

/// Calls of the program.
pub const CALLS: [&str; 20] = [
    checks::REPORTS,
    plans::PLANS,
    plans::REFUSED_BEHIND_THE_RUN,
    offers::OFFERS,
    sessions::SESSIONS,
    refusals::REFUSALS,
    refusals::LONG_LINES,
    spares::SPARES,
    flips::REFUSED,
    derived::DERIVED,
    verified::VERIFIED,
    verified_signs::SIGNS,
    refused_claims::REFUSED_CLAIMS,
    completed::COMPLETED,
    completed::NEXT,
    completed::WITHOUT,
    measured::MEASURED,
    measured::REFUSED_PLACES,
    reasons::REASONS,
    reasons::REASONS_OF_BLOCKS,
];

/// Calls of the program that place elements, most of them.
pub const DRAWINGS: [&str; 18] = [
    solves::POINTS,
    solves::LINES,
    solves::FAULTS,
    solves::PLACELESS,
    solves::TILTED,
    solves::LATER_FAULTS,
    framed::FRAMED,
    settled::SETTLED,
    drawn::DRAWN,
    flips::FLIPS,
    grown::GROWN,
    parts::PARTS,
    excess::EXCESS,
    blocks::BLOCKS,
    versions::VERSIONS,
    versions::COMMENTS,
    versions::REFUSED,
    versions::MIGRATED,
];

/// Calls below the top call.
pub const TOLD: [&str; 18] = [
    calls::CALLS,
    texts::TEXTS,
    merges::MERGES,
    closings::CLOSED,
    closings::JOINED,
    by_order::BY_ORDER,
    derived::BY_PICKS,
    placements::PLACEMENTS,
    drawn::BY_HAND,
    trees::TREES,
    tolerances::POINTS,
    tolerances::LINES,
    tolerances::WORST,
    tolerances::TURNED,
    blocks::HELD,
    claims::CLAIMS,
    flips::TURNED,
    devices::ADAPTERS,
];
