// Sessions, and the family that is kept across their lines.
use crate::row::{joined, same};
use sk_base::Text;
use sk_close_by_order::Order;
use sk_family::Family;
use sk_lines::Code;
use sk_session::{Closing, Reply, Session};
use sk_test_tables::sessions::HINGED;
use std::alloc::Global;
use std::process::Abort;

/// The session behind these lines, which it takes.
fn hinged(rt: &impl Abort, alloc: Global, closing: Closing) -> Session {
    let mut session = Session::new(alloc, Order::First, closing).expect(rt, "memory");
    for line in HINGED.split('\n') {
        gets(rt, &mut session, line.as_bytes(), None);
    }
    session
}

/// The clusters of the family with their elements, a line each.
fn family_told(rt: &impl Abort, alloc: Global, family: &Family) -> Text {
    let mut told = Text::new(alloc);
    for cluster in family.clusters() {
        let (name, elements) = (cluster.name, cluster.elements.as_slice());
        let line = format!(in alloc; "{name:?} {elements:?}\n").expect(rt, "memory");
        told.put(line.as_bytes()).expect(rt, "memory");
    }
    told
}

/// The kept clusters behind the lines, and the number of the next step.
fn kept(rt: &impl Abort, alloc: Global, closing: Closing) -> (Text, u32) {
    let session = hinged(rt, alloc, closing);
    let family = session.family();
    (family_told(rt, alloc, family), family.next_step())
}

/// Whether the family has two clusters, with these elements.
fn are_both(told: &[u8]) -> bool {
    match str::from_utf8(told) {
        Ok(lines) => {
            lines.lines().count() == 2
                && lines.split_once(APART).is_some()
                && lines.split_once(MENDED).is_some()
        }
        Err(_) => false,
    }
}

const APART: &str = " [Elem(1), Elem(4), Elem(5)]\n";

const MENDED: &str = " [Elem(1), Elem(2), Elem(3)]\n";

/// A check goes on from the kept clusters, and an undone drop starts its constraint again. In any order the clusters are
/// the same; which names they have isn't promised.
#[test]
fn a_check_goes_on_from_the_kept_clusters(rt: HostRuntime) {
    let (told, next) = kept(&rt, rt.alloc(), Closing::ByRun);
    let wanted = joined(&rt, rt.alloc(), &["Step(1)", APART, "Step(2)", MENDED]);
    same(&rt, "a run", told.as_bytes(), wanted.as_bytes());
    assert!(rt; next == 3);
    let (told, _) = kept(&rt, rt.alloc(), Closing::InAnyOrder);
    assert!(rt; are_both(told.as_bytes()));
}

/// The session takes the line, or refuses it with that code.
fn gets(rt: &impl Abort, session: &mut Session, line: &[u8], code: Option<Code>) {
    let found = match session.command(line).expect(rt, "memory") {
        Reply::Refused(found) => Some(found),
        _ => None,
    };
    assert!(rt; found == code);
}

/// A million edits and undos are taken. Then nothing stands to be undone, and no edit is taken any more.
#[test]
fn edits_are_spent_at_a_million(rt: HostRuntime) {
    let session = Session::new(rt.alloc(), Order::First, Closing::InAnyOrder);
    let mut session = session.expect(&rt, "memory");
    for _ in 0..500_000u32 {
        gets(&rt, &mut session, b"point A 0 0", None);
        gets(&rt, &mut session, b"undo", None);
    }
    gets(&rt, &mut session, b"undo", Some(Code::S3));
    gets(&rt, &mut session, b"point A 0 0", Some(Code::S5));
}
