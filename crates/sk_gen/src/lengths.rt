// The coordinates of the points.
ghost use Rattle.std.specs.Prelude.{◌≡◌, ◌≤◌};
ghost use Rattle.sk_gen.specs.DatumSketch.{mm, x_of, y_of};

use sk_base::Um;

/// So many millimetres.
pub(crate) fn mm(n: u32) -> Um
    ensures { result ≡ mm n }
{
    Um(1000 * i64::from(n))
}

/// Where the point lies along X, in millimetres.
pub(crate) fn x_of(k: u32) -> u32
    requires { k ≤ 998 }
    ensures { result ≡ x_of k }
{
    1 + 17 * k % 700
}

/// Where the point lies along Y, in millimetres.
pub(crate) fn y_of(k: u32) -> u32
    requires { k ≤ 998 }
    ensures { result ≡ y_of k }
{
    1 + 31 * k % 500
}
