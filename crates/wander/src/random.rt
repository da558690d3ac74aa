// The random source: xorshift on 64 bits.
ghost use Rattle.std.specs.Prelude.{◌≡◌};
ghost use Rattle.meander_rules.specs.Meander.{first_seed, next_seed};

pub fn first_seed(seed: u64) -> u64
    ensures { result ≡ first_seed seed }
{
    seed.max(1) ^ 0x9E37_79B9_7F4A_7C15
}

pub fn next_seed(x: u64) -> u64
    ensures { result ≡ next_seed x }
{
    let a = x ^ (x << 13);
    let b = a ^ (a >> 7);
    b ^ (b << 17)
}
