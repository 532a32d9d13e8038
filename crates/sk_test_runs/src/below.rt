// The calls below the top call. A row of a table has behind its `$` what is asked, and then a text, and behind `> ` what
// the call tells of it.
use crate::by_order::planned_told;
use crate::calls::{edges_told, order_of, read_of, written};
use crate::claims::claim_told;
use crate::closings::{closed_told, joined_told, merges_told};
use crate::derived::derived_told;
use crate::devices::{put_told, read_told};
use crate::flips::{flips_told, off_told, turned_told};
use crate::merges::board_told;
use crate::placements::{drawing_told, places_told};
use crate::row::{Row, answers, joined, same};
use crate::tables::rows_of;
use crate::texts::{datum_told, list_told, numbers_told, pieces_told};
use crate::tolerances::{held, judged, lay};
use crate::trees::{leaf_told, tree_told};
use sk_base::Text;
use sk_test_tables::{claims, flips};
use std::alloc::Global;
use std::process::Abort;

/// What a call tells of the text.
fn told(rt: &impl Abort, alloc: Global, asked: &str, text: &str) -> Text {
    match asked {
        "datum" => datum_told(rt, alloc),
        "list" => list_told(rt, alloc),
        "pieces" => pieces_told(rt, alloc),
        "numbers" => numbers_told(rt, alloc, text),
        "leaf" => leaf_told(rt, alloc),
        "claim" => claim_told(rt, alloc, text),
        "flips" => flips_told(rt, alloc, text),
        "turned" => turned_told(rt, alloc),
        "off" | "drawing" => told_of_places(rt, alloc, asked, "", text),
        _ => told_of_drawing(rt, alloc, asked, text),
    }
}

/// What a call tells of the drawing that the text is.
fn told_of_drawing(rt: &impl Abort, alloc: Global, asked: &str, text: &str) -> Text {
    let read = read_of(rt, alloc, text);
    match asked {
        "edges" => edges_told(rt, alloc, &read.graph),
        "written" => written(rt, alloc, &read.sketch),
        "joined" => joined_told(rt, alloc, &read.graph),
        "board" => board_told(rt, alloc, &read.sketch),
        "tree" => tree_told(rt, alloc, &read.sketch, &read.graph),
        _ => panic!(rt; "a call"),
    }
}

/// What a call that wants words of its own tells of the text.
fn told_with(rt: &impl Abort, alloc: Global, asked: &str, with: &str, text: &str) -> Text {
    match asked {
        "read" => read_told(rt, alloc, text, with),
        "put" => put_told(rt, alloc, text, with, false),
        "put-none" => put_told(rt, alloc, text, with, true),
        "judged" | "held" => told_of_places(rt, alloc, asked, with, text),
        _ => told_of_drawing_with(rt, alloc, asked, with, text),
    }
}

/// What such a call tells of the drawing that the text is.
fn told_of_drawing_with(
    rt: &impl Abort,
    alloc: Global,
    asked: &str,
    with: &str,
    text: &str,
) -> Text {
    let read = read_of(rt, alloc, text);
    let (sketch, graph) = (&read.sketch, &read.graph);
    match asked {
        "merges" => merges_told(rt, alloc, graph, order_of(rt, with)),
        "closed" => closed_told(rt, alloc, sketch, graph, with),
        "derived" => derived_told(rt, alloc, sketch, graph, order_of(rt, with)),
        "planned" => planned_told(rt, alloc, sketch, order_of(rt, with)),
        "places" => places_told(rt, alloc, sketch, graph, with),
        _ => panic!(rt; "a call with words"),
    }
}

/// What a call tells of a drawing whose elements lie at the places of the text.
fn told_of_places(rt: &impl Abort, alloc: Global, asked: &str, with: &str, text: &str) -> Text {
    let laid = lay(rt, alloc, text);
    match asked {
        "judged" => judged(rt, alloc, &laid, with),
        "held" => held(rt, alloc, &laid, with),
        "off" => off_told(rt, alloc, &laid),
        "drawing" => drawing_told(rt, alloc, &laid),
        _ => panic!(rt; "a call on places"),
    }
}

/// The call of the row tells its text, with each of its words where commas stand between them.
pub(crate) fn is_told(rt: &impl Abort, alloc: Global, (line, text, wanted): Row) {
    let asked = line.strip_prefix(' ').expect(rt, "a call");
    match asked.split_once(' ') {
        Some((asked, words)) => {
            for with in words.split(',') {
                let told = told_with(rt, alloc, asked, with, text);
                same(rt, line, told.as_bytes(), wanted.as_bytes());
            }
        }
        None => {
            let told = told(rt, alloc, asked, text);
            same(rt, line, told.as_bytes(), wanted.as_bytes());
        }
    }
}

/// Behind the sketch, each line of the table is refused: it stands behind a line feed, its code and `: `.
fn lines_are_refused(
    rt: &impl Abort,
    alloc: Global,
    command: &str,
    (sketch, refused): (&str, &str),
    table: &str,
) {
    for row in rows_of(rt, table, '\n').split('\n') {
        let (code, line) = row.split_once(": ").expect(rt, "a code");
        let text = joined(rt, alloc, &[sketch, line, "\n"]);
        let wanted = joined(rt, alloc, &[refused, code, "\n"]);
        answers(rt, alloc, command, text.as_bytes(), wanted.as_str());
    }
}

/// Lines behind a sketch of five lines, and of three, each with its code.
#[test]
fn refused_lines_have_their_codes(rt: HostRuntime) {
    let behind = (claims::THREE_SHAPES, "1\nrefused line 6 ");
    lines_are_refused(&rt, rt.alloc(), " verify", behind, claims::REFUSED_LINES);
    let behind = (flips::LONE_POINT, "1\nrefused line 4 ");
    lines_are_refused(&rt, rt.alloc(), " flips", behind, flips::REFUSED_LINES);
}
