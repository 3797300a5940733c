// Polynomials over the byte field, as slices of coefficients, constant first.
ghost use Rattle.std.specs.Prelude.{◌≡◌, ◌+◌, ◌-◌, ◌<◌, length, take};
ghost use Rattle.blocks.specs.Poly.{eval, plus, scale, with_root, vanishing, newton_step, through};

// The value of p at x, by Horner's rule.
pub fn value_at(p: &[u8], x: u8) -> u8
    ensures { result ≡ eval p.now x }
{
    p.iter().rev().fold(0, |acc, c| *c ^ field::product(x, acc))
}

// Adds c times m to p.
pub fn add_scaled(p: &mut [u8], m: &[u8], c: u8)
    requires { (length p.old ≡ length m.now) }
    ensures { p.new ≡ plus p.old (scale c m.now) }
{
    for i in 0..p.len() {
        p[i] ^= field::product(c, m[i]);
    }
}

// Newton's step: adds as much of m to p as makes it y at x.
fn newton_step(p: &mut [u8], m: &[u8], x: u8, y: u8)
    requires { (length p.old ≡ length m.now) }
    ensures { p.new ≡ newton_step p.old m.now x y }
{
    let gap = y ^ value_at(p, x);
    // p is y at x already, and no inverse is needed; so it is for a unit vector at all points after its 1
    if gap == 0 {
        return;
    }
    let inverse = field::inverse(value_at(m, x));
    let c = field::product(gap, inverse);
    add_scaled(p, m, c);
}

// Multiplies m, whose last coefficient is 0, by X - x.
fn with_root(m: &mut [u8], x: u8)
    requires { (0 < length m.old) }
    ensures { m.new ≡ take (length m.old) (with_root x m.old) }
{
    for i in (1..m.len()).rev() {
        m[i] = field::product(x, m[i]) ^ m[i - 1];
    }
    m[0] = field::product(x, m[0]);
}

// k is the length of p, which holds the polynomial through k - 1 points in its front; m holds the product of X - x over these points.
// Adds the point (x, y) to both.
fn with_point(p: &mut [u8], m: &mut [u8], x: u8, y: u8)
    requires { (0 < length p.old) × (length m.old ≡ length p.old + 1) }
    ensures { (p.new ≡ newton_step (take (length p.old - 1) p.old) (take (length p.old) m.old) x y)
        × (m.new ≡ with_root x (take (length p.old) m.old)) }
{
    let k = p.len();
    p[k - 1] = 0;
    newton_step(p, &m[..k], x, y);
    m[k] = 0;
    with_root(m, x);
}

// The polynomial through the points (xs, ys) into p, built from the one through all but the first point, and the product of X - x
// over xs into m.
// Document 01 names this form: it calls itself with one point fewer.
pub fn interpolate(xs: &[u8], ys: &[u8], p: &mut [u8], m: &mut [u8])
    requires { (length ys.now ≡ length xs.now) × (length p.old ≡ length xs.now) × (length m.old ≡ length xs.now + 1) }
    ensures { (p.new ≡ through xs.now ys.now) × (m.new ≡ vanishing xs.now) }
{
    let k = xs.len();
    if k == 0 {
        m[0] = 1;
        return;
    }
    let n = k - 1;
    interpolate(&xs[1..], &ys[1..], &mut p[..n], &mut m[..k]);
    with_point(p, m, xs[0], ys[0]);
}
