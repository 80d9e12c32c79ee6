//! A round of SHA-256 (FIPS 180-4, 6.2.2) on one block's working variables.

ghost use Rattle.std.specs.Prelude.{◌≡◌, ◌∷◌, [], ℕ, slice_index};
ghost use Rattle.sha2.specs.Sha256.{add32, add_state, big_sigma0, big_sigma1, ch, maj, round};

#[tactic(auto, using(crate::proofs::Bits::ch_three))]
#[inline(always)]
fn ch(x: u32, y: u32, z: u32) -> u32
    ensures { result ≡ ch x y z }
{
    z ^ (x & (y ^ z))
}

/// The next round reads `x` and `y` as its `y` and `z`, so the compiler computes their exclusive or once.
#[tactic(auto, using(crate::proofs::Bits::maj_three))]
#[inline(always)]
fn maj(x: u32, y: u32, z: u32) -> u32
    ensures { result ≡ maj x y z }
{
    y ^ ((x ^ y) & (y ^ z))
}

#[inline(always)]
fn big_sigma_0(x: u32) -> u32
    ensures { result ≡ big_sigma0 x }
{
    x.rotate_right(2) ^ x.rotate_right(13) ^ x.rotate_right(22)
}

#[inline(always)]
fn big_sigma_1(x: u32) -> u32
    ensures { result ≡ big_sigma1 x }
{
    x.rotate_right(6) ^ x.rotate_right(11) ^ x.rotate_right(25)
}

/// One round, with the sum of its constant and its word. The sum for the next e adds Σ 1 last, and the next a comes
/// from that e: so the chain of additions from one round to the next is short.
#[inline(always)]
pub(crate) fn round(variables: [u32; 8], keyed: u32) -> [u32; 8]
    ensures { (k w : ℕ) → keyed ≡ add32 k w → result ≡ round variables k w }
{
    let [a, b, c, d, e, f, g, h] = variables;
    let next_e = d
        .wrapping_add(h)
        .wrapping_add(keyed)
        .wrapping_add(ch(e, f, g))
        .wrapping_add(big_sigma_1(e));
    let rest = big_sigma_0(a).wrapping_add(maj(a, b, c)).wrapping_sub(d);
    [next_e.wrapping_add(rest), a, b, c, next_e, e, f, g]
}

/// The next hash value (step 4).
#[inline(always)]
pub(crate) fn add_state(state: [u32; 8], variables: [u32; 8]) -> [u32; 8]
    ensures { result ≡ add_state state variables }
{
    [
        state[0].wrapping_add(variables[0]),
        state[1].wrapping_add(variables[1]),
        state[2].wrapping_add(variables[2]),
        state[3].wrapping_add(variables[3]),
        state[4].wrapping_add(variables[4]),
        state[5].wrapping_add(variables[5]),
        state[6].wrapping_add(variables[6]),
        state[7].wrapping_add(variables[7]),
    ]
}
