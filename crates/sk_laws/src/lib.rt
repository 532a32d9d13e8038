//! Laws on what the top call answers: that there is one answer, what each status comes from, and the headline.
#![tactic(auto)]

mod law;

pub use law::{
    causes, completions_are_right, first_replies_are_a_front, gaps_stay, given_places_are_measured,
    headline, live_answers_as_session, migrated_reads_the_same, one_outcome,
    printed_claims_are_accepted, shapes_are_as_solved, solved_places_are_found, some_outcome,
    verified_drawings_are_right, why_measure_ends,
};
