//! Leaves of a tree by number.
ghost use Rattle.std.specs.Prelude.{◌≡◌, ◌≤◌, length};
ghost use Rattle.tier_shape.specs.Preferred.{leaf_at, number_in, last_number, preferred};

/// Returns the leaf with this number. After the last leaf the numbers start again at 0.
pub fn leaf_at(leaves: &[u16], number: usize) -> u16
    ensures { result ≡ leaf_at leaves.now number }
{
    if leaves.is_empty() {
        return 0;
    }
    leaves[number % leaves.len()]
}

// Returns the number of a leaf, or the number of leaves if it isn't one.
fn number_in(leaves: &[u16], leaf: u16) -> usize
    ensures number { result ≡ number_in leaves.now leaf }
    ensures within { result ≤ length leaves.now }
{
    let mut number = 0;
    let mut rest = leaves;
    while let Some((one, after)) = rest.split_first() {
        if *one == leaf {
            return number;
        }
        number += 1;
        rest = after;
    }
    number
}

// Returns the last number of a path, or 0 if the path is empty.
fn last_number(path: &[u16]) -> u16
    ensures { result ≡ last_number path.now }
{
    path.last().copied().unwrap_or(0)
}

/// Returns the leaf that a spawned task prefers: `home` is its spawner's leaf and `path` the task's path.
pub fn preferred(leaves: &[u16], home: u16, path: &[u16]) -> u16
    ensures { result ≡ preferred leaves.now home path.now }
{
    let number = number_in(leaves, home) + 1 + usize::from(last_number(path));
    leaf_at(leaves, number)
}
