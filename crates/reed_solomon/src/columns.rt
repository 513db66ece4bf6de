// Bytes laid out column by column, so that the field's loops work on many stripes at a time.
ghost use Rattle.std.specs.Prelude.{◌≡◌, ◌+◌, ◌*◌, ◌≤◌, ◌<◌, length};
ghost use Rattle.reed_solomon.specs.Steps.{every, transposed, row_values};

// Every w-th byte of l, from byte j on, into out.
pub(crate) fn take_column(l: &[u8], w: usize, j: usize, out: &mut [u8])
    requires { (length l.now ≡ length out.old * w) × (j < w) × (w ≤ 128) }
    ensures { out.new ≡ every w l.now j (length out.old) }
{
    for (s, byte) in out.iter_mut().enumerate() {
        *byte = l[s * w + j];
    }
}

// The bytes of l, which has h rows of w bytes, column by column, into out.
pub(crate) fn transpose(l: &[u8], h: usize, w: usize, out: &mut [u8])
    requires { (length l.now ≡ h * w) × (length out.old ≡ h * w) × (h ≤ 128) × (w ≤ 128) }
    ensures { out.new ≡ transposed h w l.now }
{
    for j in 0..w {
        let a = j * h;
        let e = a + h;
        take_column(l, w, j, &mut out[a..e]);
    }
}

// The values at x of polynomials with t + 1 coefficients, as many as out has bytes, whose coefficients stand in cols column by column, into out.
pub(crate) fn values(cols: &[u8], t: usize, x: u8, out: &mut [u8])
    requires { (length cols.now ≡ length out.old * (t + 1)) × (1 ≤ length out.old) × (length out.old ≤ 128) × (t ≤ 5) }
    ensures { out.new ≡ row_values (length out.old) t cols.now x }
{
    let rows = out.len();
    let mut a = t * rows;
    out.copy_from_slice(&cols[a..]);
    // `for j in (0..t).rev()` is slower by a half: compiled, it adds a byte at a time; `for column in cols[..a].rchunks(rows)` is slower by a twentieth
    while 0 < a {
        let e = a;
        a -= rows;
        gf256::horner_at_point(out, x, &cols[a..e]);
    }
}
