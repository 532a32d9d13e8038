// A plan on the grid of so many binary digits.
ghost use Rattle.std.specs.Prelude.{◌≡◌, IfOk};
ghost use Rattle.sk_base.specs.SoundSketch.{IsSoundSketch};
ghost use Rattle.sk_graph.specs.SketchGraph.{graph_of};
ghost use Rattle.sk_tree.specs.LegalPlan.{IsLegalPlan};
ghost use Rattle.sk_request.specs.Grids.{grid_of, digits_of};
ghost use Rattle.sk_cli.specs.Solving.{IsPlacement, LiesWithinBounds};

use sk_base::{Graph, NoMemory, Sketch};
use sk_interval::{G16, G27, G38};
use sk_request::{Bits, Request};
use sk_solve::{Placement, placed_on};
use sk_tolerance::Wanted;
use sk_tree::Plan;
use std::alloc::Global;

/// How the plan of the sketch is placed, in the layout and on the grid of the request, where no tolerance
/// may be more than its limit.
pub(crate) fn placed(
    alloc: Global,
    request: Request,
    s: &Sketch,
    g: &Graph,
    p: &Plan,
) -> Result<Placement, NoMemory>
    requires sketch { IsSoundSketch s.now }
    requires graph { g.now ≡ graph_of s.now }
    requires legal { IsLegalPlan g.now p.now }
    ensures placement { IfOk result (IsPlacement (grid_of request.bits) request.layout (digits_of request.bits) request.within s.now p.now) }
    ensures bounded { IfOk result LiesWithinBounds }
{
    match request.bits {
        Bits::Sixteen => placed_on::<G16>(
            alloc,
            request.layout,
            Wanted::Drawn,
            request.within,
            s,
            g,
            p,
        ),
        Bits::TwentySeven => placed_on::<G27>(
            alloc,
            request.layout,
            Wanted::Drawn,
            request.within,
            s,
            g,
            p,
        ),
        Bits::ThirtyEight => placed_on::<G38>(
            alloc,
            request.layout,
            Wanted::Drawn,
            request.within,
            s,
            g,
            p,
        ),
    }
}
