// Which trees a name has, the numbers of constraints, and that the drawing chooses what a plan may.
ghost use Rattle.std.specs.Prelude.{◌≡◌, ◌≢◌, List, [], map, Contains};
ghost use Rattle.sk_base.specs.declared.Edge.{Edge};
ghost use Rattle.sk_base.specs.declared.Elem.{Elem};
ghost use Rattle.sk_base.specs.declared.Graph.{Graph};
ghost use Rattle.sk_base.specs.declared.Kind.{Kind};
ghost use Rattle.sk_base.specs.declared.Kind.TheVariants.{Line};
ghost use Rattle.sk_base.specs.declared.Name.{Name};
ghost use Rattle.sk_base.specs.declared.Sketch.{Sketch};
ghost use Rattle.sk_base.specs.SoundGraph.{HasNode};
ghost use Rattle.sk_base.specs.SoundSketch.{IsSoundSketch};
ghost use Rattle.sk_graph.specs.SketchGraph.{graph_of};
ghost use Rattle.sk_rules.specs.declared.Taken.{Taken};
ghost use Rattle.sk_tree.specs.ByNumber.{by_number};
ghost use Rattle.sk_tree.specs.DrawnChoice.{drawn_choice, shapes_of};
ghost use Rattle.sk_tree.specs.LegalPlan.{FitsKinds, numbers_of};
ghost use Rattle.sk_tree.specs.declared.tree.Tree.{Tree};
ghost use Rattle.sk_tree.specs.Trees.{AreJoins, HasRisingSteps, AreAlike, IsTreeOf};

/// Where merges are of constraints and of earlier steps, each step has a tree. Where the steps' names
/// rise, any two trees of a name are alike: the same but for where their joins stand in memory.
pub fn one_tree()
    ensures some { (taken : List Taken) (t : Taken) → AreJoins taken → Contains taken t → (tree : Tree) × IsTreeOf taken t.step tree }
    ensures alike { (taken : List Taken) (n : Name) (one other : Tree) → HasRisingSteps taken → IsTreeOf taken n one → IsTreeOf taken n other → AreAlike one other }
{}

/// Without blocks the numbers of a graph's constraints are its edges' numbers, in the edges' order.
pub fn numbers_without_blocks()
    ensures { (g : Graph) → g.blocks ≡ [] → numbers_of g ≡ map (λ (e : Edge). e.id) g.edges }
{}

/// The choice of the drawing fits the kinds of three different nodes that aren't all lines.
pub fn fitting_choice()
    ensures { (s : Sketch) (a b c : Elem) (of_a of_b of_c : Kind) → IsSoundSketch s → a ≢ b → b ≢ c → c ≢ a
        → HasNode (graph_of s) a of_a → HasNode (graph_of s) b of_b → HasNode (graph_of s) c of_c
        → ¬ (HasNode (graph_of s) a Line × HasNode (graph_of s) b Line × HasNode (graph_of s) c Line)
        → FitsKinds (graph_of s) a b c (drawn_choice (shapes_of s (by_number a b c))) }
{}
