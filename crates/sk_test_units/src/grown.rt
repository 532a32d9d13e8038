use sk_base::Shape;
use sk_gen::datum_sketch;

/// The greatest datum sketch, and the sums of all coordinates of its points, in micrometres.
#[test]
fn all_points(rt: HostRuntime) {
    let s = datum_sketch(rt.alloc(), 1000).expect(&rt, "memory");
    assert!(rt; s.elements.len() == 1000 && s.constraints.len() == 1997);
    let (mut sum_x, mut sum_y) = (0i64, 0i64);
    for element in s.elements.as_slice() {
        if let Shape::Point { x, y } = element.shape {
            sum_x = sum_x.wrapping_add(x.0);
            sum_y = sum_y.wrapping_add(y.0);
        }
    }
    assert!(rt; sum_x == 347_815_000 && sum_y == 250_029_000);
    let last = &s.elements.as_slice()[999];
    assert!(rt; last.label.as_bytes() == b"P998".as_slice());
}
