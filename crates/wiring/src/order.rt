// The registers of a part in order of first mention, each once: the order of the accesses.
ghost use Rattle.std.specs.Prelude.{◌≡◌, ◌≤◌, length, get_or};
ghost use Rattle.wiring.specs.Pieces.{Usable};
ghost use Rattle.wiring.specs.Order.{is_mentioned, access_order, read_before};

use crate::BitList;
use crate::pieces::piece_at;

// One of the first `k` pieces names register `r`.
fn mentioned(variables: &[u32], part: BitList, r: usize, k: usize) -> bool
    requires usable { Usable part }
    requires k_bound { k ≤ 8 }
    ensures { result ≡ is_mentioned variables.now part r k }
{
    (0..k)
        .rev()
        .any(|j| piece_at(variables, part, j).register == r)
}

// How many distinct registers the part has: the number of its accesses.
pub fn register_count(variables: &[u32], part: BitList) -> usize
    requires { Usable part }
    ensures { result ≡ length (access_order variables.now part) }
{
    let mut seen: usize = 0;
    for k in 0..part.count {
        let piece = piece_at(variables, part, k);
        if !mentioned(variables, part, piece.register, k) {
            seen += 1;
        }
    }
    seen
}

// The register of access `n`, and 0 past the last.
pub fn register_at(variables: &[u32], part: BitList, n: usize) -> usize
    requires { Usable part }
    ensures { result ≡ get_or (access_order variables.now part) n 0 }
{
    let mut seen: usize = 0;
    for k in 0..part.count {
        let piece = piece_at(variables, part, k);
        if !mentioned(variables, part, piece.register, k) {
            if seen == n {
                return piece.register;
            }
            seen += 1;
        }
    }
    0
}

// Register `r` is one of the first `step` that are accessed.
pub fn read_before(variables: &[u32], part: BitList, r: usize, step: usize) -> bool
    requires { Usable part }
    ensures { result ≡ read_before variables.now part r step }
{
    (0..step)
        .rev()
        .any(|n| register_at(variables, part, n) == r)
}
