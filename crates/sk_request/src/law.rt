// A law on what words ask for.
ghost use Rattle.std.specs.Prelude.{◌≡◌, ℕ, List};
ghost use Rattle.sk_request.specs.declared.request.Request.{Request};
ghost use Rattle.sk_request.specs.Asking.{Asks};

/// Words ask for one thing at most.
pub fn one_request()
    ensures { (words : List (List ℕ)) (one other : Request) → Asks words one → Asks words other → one ≡ other }
{}
