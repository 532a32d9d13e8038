// Calls by their numbers.
ghost use Rattle.std.specs.Prelude.{◌↔◌, IsTrue, Contains};

/// Whether the call with this number is one of those that are to fail.
pub(crate) fn is_listed(fails: &[u64], call: u64) -> bool
    ensures { IsTrue result ↔ Contains fails.now call }
{
    fails.contains(&call)
}
