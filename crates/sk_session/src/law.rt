// Laws of edits and of replies.
ghost use Rattle.std.specs.Prelude.{◌≡◌, ◌<◌, ◌↔◌, ℕ, List, Some, length, map};
ghost use Rattle.sk_lines.specs.declared.Code.{Code};
ghost use Rattle.sk_session.specs.declared.reply.Reply.{Reply as AReply};
ghost use Rattle.sk_session.specs.declared.reply.Reply.TheVariants as a_reply;
ghost use Rattle.sk_session.specs.SessionCodes.{code_in};
ghost use Rattle.sk_session.specs.State.{State, sketch_in, IsSameElse};
ghost use Rattle.sk_session.specs.Replies.{Answers};
ghost use Rattle.sk_base.specs.declared.Sketch.{Sketch};
ghost use Rattle.sk_base.specs.SoundSketch.{IsSoundSketch};
ghost use Rattle.sk_family.specs.Body.{starts, initial_bodies};
ghost use Rattle.sk_family.specs.Clusters.{Clusters, IsSound, bodies};
ghost use Rattle.sk_rules.specs.Reach.{Reach};
ghost use Rattle.sk_graph.specs.SketchGraph.{graph_of};
ghost use Rattle.sk_edits.specs.declared.Edit.{Edit as AnEdit};
ghost use Rattle.sk_edits.specs.Edits.{applied};
ghost use Rattle.sk_plan.specs.ConstraintStarts.{constraint_start};
ghost use Rattle.sk_edits.specs.Making.{CanMake};
ghost use Rattle.sk_session.specs.Following.{Follows, FollowsBack};

use sk_entry::{one_entry, what_a_line_says};

/// The constraints of a sound sketch's graph start as those of the sketch do, in their order.
pub fn starts_as_named()
    ensures { (s : Sketch) → IsSoundSketch s → starts (graph_of s) ≡ map constraint_start s.constraints }
{}

/// The kept family follows each edit, and its undoing, and is then one that merges of the initial
/// family of the new sketch lead to.
pub fn kept_along()
    ensures follows { (edit : AnEdit) (s : Sketch) (old new : Clusters) → IsSound old → IsSound new → CanMake edit s → Reach (graph_of s) (initial_bodies (graph_of s)) (bodies old)
        → Follows edit s old new → Reach (graph_of (applied edit s)) (initial_bodies (graph_of (applied edit s))) (bodies new) }
    ensures follows_back { (edit : AnEdit) (s : Sketch) (old new : Clusters) → IsSound old → IsSound new → CanMake edit s
        → Reach (graph_of (applied edit s)) (initial_bodies (graph_of (applied edit s))) (bodies old) → FollowsBack edit s old new → Reach (graph_of s) (initial_bodies (graph_of s)) (bodies new) }
{}

/// A line is refused exactly where it has a code, and with that code.
pub fn refused_exactly()
    ensures { (old new : State) (line : List ℕ) (answer : AReply) (code : Code) → Answers old line answer new → (answer ≡ a_reply.Refused code) ↔ (code_in old line ≡ Some code) }
{}

/// A line has at most one reply, and after it the order, the standing edits and the number of edits and undos
/// are told by those before it. The kept family, and how it is closed, have no part in that.
pub fn one_reply()
    ensures { (old other new last : State) (line : List ℕ) (one said : AReply) → IsSoundSketch (sketch_in old) → IsSameElse old other → Answers old line one new → Answers other line said last
        → (one ≡ said) × IsSameElse new last }
{
    one_entry();
}

/// `solve` is answered only where the sketch has an element.
pub fn some_to_solve()
    ensures { (old new : State) (line : List ℕ) → Answers old line a_reply.Solve new → 0 < length (sketch_in new).elements }
{
    what_a_line_says();
}
