// A walk in the slice w of n grid points. Its first n numbers mark the free points, the next n hold the stack, from their end down, and the 2n behind these the points of all paths.
// kept (6): rule: document 01 lends one slice of whole numbers for the walks; no heap
ghost use Rattle.std.specs.Prelude.{◌≡◌, true, ◌∷◌, ◌+◌, ◌*◌, ◌<◌, ◌≤◌, length, take};
ghost use Rattle.meander_rules.specs.Meander.{is_free, go_on, go_back};
ghost use Rattle.wander.specs.Walking.{walk_in, Sized, Stepped};

use crate::Steps;

// Whether grid point k is inside and not visited yet.
pub fn is_free(w: &[usize], n: usize, k: usize) -> bool
    requires { n ≤ length w.now }
    ensures { result ≡ is_free (take n w.now) k }
{
    k < n && w[k] == 1
}

// On to point k.
pub fn go_on(w: &mut [usize], n: usize, s: Steps, k: usize) -> Steps
    requires { Sized n w.old s × (k < n) × (n < s.top) × (s.size < 2 * n) }
    ensures { Stepped n w.old w.new result (go_on k (walk_in n w.old s)) }
{
    let top = s.top - 1;
    let at = 2 * n + s.size;
    w[k] = 0;
    w[top] = k;
    w[at] = k;
    Steps {
        top,
        size: s.size + 1,
        ..s
    }
}

// Back to the point before, if there is one.
pub fn go_back(w: &mut [usize], n: usize, s: Steps) -> Steps
    requires { Sized n w.old s × (n ≤ s.top) × (s.top < 2 * n) × (s.top + 1 < 2 * n → s.size < 2 * n) }
    ensures { Stepped n w.old w.new result (go_back (walk_in n w.old s)) }
{
    let top = s.top + 1;
    if top < 2 * n {
        let at = 2 * n + s.size;
        let k = w[top];
        w[at] = k;
        return Steps {
            top,
            size: s.size + 1,
            ..s
        };
    }
    Steps { top, ..s }
}
