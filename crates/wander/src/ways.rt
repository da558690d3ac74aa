// The ways on from a grid point, and their shuffled order.
ghost use Rattle.std.specs.Prelude.{◌≡◌, true, [], ◌+◌, ◌*◌, ◌<◌, ◌≤◌, ◌++◌};
ghost use Rattle.seqs.specs.Lists.{keep_if};
ghost use Rattle.meander_rules.specs.Meander.{most_points, neighbours, shuffle};
ghost use Rattle.arrayvec.specs.ArrayVec.{array_vec_len};

use crate::random::next_seed;
use arrayvec::ArrayVec;
use meander_rules::Lattice;

// One way more, if it is there.
fn push_if(ways: &mut ArrayVec<usize, 4>, yes: bool, way: usize)
    requires { array_vec_len ways.old < 4 }
    ensures { (ways.new.items ≡ ways.old.items ++ keep_if yes way []) × (array_vec_len ways.new ≤ array_vec_len ways.old + 1) }
{
    if yes {
        ways.push(way);
    }
}

// Left, right, up and down.
pub fn neighbours(g: Lattice, here: usize) -> ArrayVec<usize, 4>
    requires { (here < g.columns * g.rows) × (g.columns * g.rows ≤ most_points) }
    ensures { result.items ≡ neighbours g here }
{
    let column = here % g.columns;
    let row = here / g.columns;
    let mut ways = ArrayVec::new();
    push_if(&mut ways, 0 < column, here.wrapping_sub(1));
    push_if(&mut ways, column + 1 < g.columns, here + 1);
    push_if(&mut ways, 0 < row, here.wrapping_sub(g.columns));
    push_if(&mut ways, row + 1 < g.rows, here + g.columns);
    ways
}

// The random order of the ways; answers the random source after it.
pub fn shuffle(order: &mut [usize], seed: u64) -> u64
    ensures { (order.new ≡ (shuffle order.old seed).order) × (result ≡ (shuffle order.old seed).seed) }
{
    let mut x = seed;
    for i in (1..order.len()).rev() {
        x = next_seed(x);
        let j = (x % (i as u64 + 1)) as usize;
        order.swap(i, j);
    }
    x
}
