// A part of a working slice copied.
ghost use Rattle.std.specs.Prelude.{◌≡◌, ◌++◌, ◌≤◌, length, drop};

// s, to the front of out, one by one: `copy_from_slice` would have the archive ask for memmove.
pub fn copy(out: &mut [f64], s: &[f64])
    requires { length s.now ≤ length out.old }
    ensures { out.new ≡ s.now ++ drop (length s.now) out.old }
{
    for (i, x) in s.iter().enumerate() {
        out[i] = *x;
    }
}
