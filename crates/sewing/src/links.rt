// Links: for every piece the next of its section, for every section its first.
ghost use Rattle.std.specs.Prelude.{◌≡◌, ℕ, ◌+◌, ◌*◌, ◌<◌, ◌≤◌, length, replicate, get_or};
ghost use Rattle.seqs.specs.Slices.{Put};
ghost use Rattle.sewing.specs.Sewing.{numbers_in, links, Marked, Linking};

// From the last piece back: the table of firsts is what is known of the pieces behind.
fn chain(wholes: &mut [usize], n: usize, sections: usize)
    requires { Marked n sections wholes.old × ((s : ℕ) → s < sections → get_or wholes.old (4 * n + s) 0 ≡ n) }
    ensures { Linking n sections 0 (numbers_in n wholes.old) wholes.old wholes.new }
{
    for i in (0..n).rev() {
        let s = wholes[n + 2 * i];
        let next = wholes[4 * n + s];
        wholes[3 * n + i] = next;
        wholes[4 * n + s] = i;
    }
}

// The links of n pieces and their sections, behind the marks.
pub fn link(wholes: &mut [usize], n: usize, sections: usize)
    requires { Marked n sections wholes.old }
    ensures { Put wholes.old wholes.new (3 * n) (links (numbers_in n wholes.old) sections) }
{
    wholes[4 * n..4 * n + sections].fill(n);
    chain(wholes, n, sections);
}
